// What each call promises a host, over lent words and bytes, and the theorems about any list of calls. No code.
#![tactic(auto)]
