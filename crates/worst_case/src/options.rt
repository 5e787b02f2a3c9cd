//! The budgets, limits and thresholds of the queries, each with the reason for it and the bench that measures
//! it. What each of them does is told in `docs/SIMPLIFICATION.md`, with the budgets of the diagrams and of
//! the solver, which stand in their own crates.

/// The most inputs with which every vector is held from the beginning, and tried before anything else: the
/// 65,536 vectors take less than a second. `bench/CIRCUITS.md` has runs with 16 inputs and more.
pub const LANE_INPUTS: u32 = 16;

/// The most inputs with which every vector is tried where diagrams leave a question open. With 24 inputs they
/// are 16,777,216: the right outputs take two megabytes an output, and the rows of the inputs 48, so at most
/// 176 megabytes with 64 outputs. Each further input doubles this and the time. `bench/SOLVER.md` has the
/// multipliers with 20 and 24 inputs, to whose questions the solver alone had no answer in 500 s.
pub const MOST_TRIED_INPUTS: u32 = 24;

/// The most inputs with which no diagrams are made: with 20 inputs every vector is tried in some
/// milliseconds, and to find that a multiplier has no small diagrams takes half a second. `bench/growth` has
/// multipliers with 16 to 24 inputs.
pub const MOST_INPUTS_WITHOUT: u32 = 20;

/// How many tables are computed at 512 vectors in the time of one step of a question to diagrams. A question
/// that every vector can answer gets as many steps as that takes. With all of its steps, nearly all the time
/// of a colour conversion with 24 inputs went into questions of up to half a second each. `bench/growth` has
/// multipliers with 22 and 24 inputs.
pub const TABLES_A_STEP: u64 = 64;

/// The number of vectors that are tried of a net with more than `LANE_INPUTS` inputs: sixteen blocks of 512,
/// which together take less time than one question to diagrams. With an eighth of these vectors, four times
/// as many questions of a Sobel filter (`sobel4` in `bench/CIRCUITS.md`) found a vector, and each of these
/// questions cost as much as four others.
pub const TRIALS: u32 = 8192;

/// Where the log can go by cases instead, the solver may have half as many conflicts as there are vectors,
/// and these besides. A quarter of them may go to the sweep: with 3,000 in all too few were left for the
/// search. `bench/CIRCUITS.md` shows which logs go by cases.
pub const FEW_CONFLICTS: u64 = 3000;

/// The most queries of one question, the first among them. The last formulas of common blocks that 10,000
/// conflicts leave open end within a small multiple of 100,000 conflicts: `bench/SOLVER.md`, 'Questions put
/// again'.
pub const MOST_QUERIES: u64 = 16;

/// The conflicts within which a question is asked first where more are allowed: a first query of many
/// conflicts forgets nothing and reads the clauses of rows, so it takes longer than the search that forgets
/// behind it. With 100,000 the last log of a Sobel filter took seven times as long as within these. With
/// 10,000 it would take less still, but the sweep has a quarter of the conflicts, and the log of an 8-bit
/// multiplier within a relative error would have five times the bytes: `bench/SOLVER.md`, 'Clauses over
/// signals alone'.
pub const EARLY_CONFLICTS: u64 = 20_000;

/// How many of the vectors that were found last are kept, around which one with a larger error is looked for.
/// `bench/WIDE.md` has a filter of 56 inputs that takes three fifths of the time with them.
pub const MOST_STARTS: usize = 4;

/// The most steps from a vector to a nearby one with a larger error. Few are made: each has to raise the
/// error, and mostly none does after some.
pub const MOST_CLIMBED: u32 = 64;
