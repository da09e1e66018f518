// Decks with one fault each and lawful neighbours, computed by the language's definitions [S Cards]. No code.
#![tactic(auto)]
