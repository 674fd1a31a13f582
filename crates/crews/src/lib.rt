// Two crews, either order: request 13, said of the memory. There is no code here, only laws.
//
// What is here: in specs/ what it is for two edits to be those of two crews (different cell numbers, and cells that share no mark), and for two
// lists of edits. What is proved, from the promises of the calls alone, for any well-formed memory of either edition and cells of every type: each
// edit gets the same answer before the other and after it (Kept, Answered); the two orders leave one map (Swapped) and one memory, word for
// word, in the room and beyond, so every query answers alike and the live counts are equal (Either); so do two lists of edits, of one edit or
// more, each up to its first refusal (Lists), and made by `edits` they leave one memory and one tally (Tallies).
#![tactic(auto)]
