// Cases computed by the rules, with numbers from the papers: tables with one fault each and their lawful neighbours [S Shape rules]
// [S The table], single operations, refusals where two faults meet, and the bytes of a file [S The snapshot]. No code.
#![tactic(auto)]
