// A surface read, written and read again. There is no code here, only laws.
//
// What is proved, from the promises of `read_off` and `write_off` alone: a surface that was read from OFF text is written as a text that says the
// same surface, so that reading it again gives the same cells under the same numbers and the same positions, and writing it once more the same
// text (Again, Turned, Reread). Any surface that is written and then read comes back with the same cells in their order and the same positions,
// renumbered 0, 1, 2 where its numbers had gaps, under edition 1 whatever its edition was and with licence 0 (Gaps), and written once more it is
// the same text (Rewritten); where there are no gaps and no licences it is the map itself (Gapless), as after a read (ReadGapless).
#![tactic(auto)]
