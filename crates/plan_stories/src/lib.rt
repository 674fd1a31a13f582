// Planned changes: the planner and the check together. There is no code here, only laws.
//
// What is proved, from the promises of the calls alone: where the wanted list can be built afresh under the capacities and edition of today's map,
// each edit of the planner's plan is accepted in turn and they leave the map of the wanted cells (Passing), since such a list is read whole and its
// cells are tidy (Buildable); the words of the plan are read back as its edits (Mornings), so all of them are made (Passes) and the plan is
// right (Right); `plan` gives it where it fits, and `plan_check` says yes to its words (Calls).
#![tactic(auto)]
