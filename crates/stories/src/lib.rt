// The evening: demand 3, said of the memory. There is no code here, only laws.
//
// What is here: in specs/ the story of a memory (formatted or built, then edited, with formats and builds between), the steps of a walker in a
// row, and a record that is the same in two memories, by field and by word. What is proved, from the promises of the calls alone: after any story
// memory is well-formed, every query answers by definition over the cells that the edits leave, and the whole check says yes (Stories), and so
// after a list of edits in one call (Mornings); so as a mesh built afresh from them in any order, which is accepted (Afresh) and has the same
// words and the same answers (Alike); an accepted edit leaves the records of other marks and of cells that share no mark with it (Kept); a cell's
// record fixes its siblings (SiblingRecords), a mark's its first anchors, and the head's counts are those of the lists (Records); the walker
// returns after exactly as many steps as the set has half-facets (Walks).
#![tactic(auto)]
