// What the papers say of the plans that crate `plan` defines: statements in specs/, proofs in proofs/, no code.
// Report, Travels, Exact, ExactShape: the report's sets and programs, and exactly which cells and messages a plan has.
// Rows, ShapedExamples: document 01's rows A to H, the requests' rows and small recipes with bounds, computed by the checker.
#![tactic(auto)]
