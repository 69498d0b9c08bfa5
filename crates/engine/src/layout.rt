// Numbers of the memory and of a path.
use word::Word;

// A reference is a position in the program and, so many times as there are positions, the base of its environment.
pub(crate) const POSITIONS: u32 = 16384;

// A word of kind pair, which no leaf of a term has.
pub(crate) const PAIR_WORD: u32 = Word::PAIR * 268435456;

// Places in the scratch: each area's first word. A run uses `rules::SCRATCH_WORDS`; the areas end at 12,032, and the words from there on are free. From word 0 on, a variable's word is 0 while it
// is open, else the reference that it is bound to, plus 1.

// The bound variables in the order of binding.
pub(crate) const TRAIL: usize = 2048;

// The writer's numbers of open variables.
pub(crate) const NAMES: usize = 4096;

// Goals waiting, in cells of two words from 6144 on: the goal's reference and the next cell's number. Cells are numbered from 1 on.
pub(crate) const CELL_GOAL: u32 = 6142;

pub(crate) const CELL_NEXT: u32 = 6143;

// Choice points: eight words each.
pub(crate) const POINTS: u32 = 8192;

// References of the constraints' goals.
pub(crate) const CONSTRAINTS: usize = 10240;

// Term pairs waiting: two words each.
pub(crate) const PAIRS: usize = 10752;

// Where each relation begins.
pub(crate) const RELATIONS: usize = 11776;

// The words of the output that are used at most.
pub(crate) const MOST_OUTPUT: usize = 268435455;

// Bounds of one path, in the order of document 01.
pub(crate) const MOST_VARIABLES: u32 = 2048;

pub(crate) const MOST_GOALS: u32 = 1024;

pub(crate) const MOST_DISJUNCTIONS: u32 = 256;

pub(crate) const MOST_CONSTRAINTS: u32 = 512;
// Waiting term pairs and waiting nodes, counted apart.
pub(crate) const MOST_PAIRS: usize = 512;

pub(crate) const MOST_NODES: u32 = 512;
