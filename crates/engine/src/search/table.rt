// The table of relations: where each one begins. It is filled once a run.
ghost use Rattle.std.specs.Prelude.{◌≡◌, ◌≤◌, length};
ghost use Rattle.std.proofs.Math.Option.{some};
ghost use Rattle.std.proofs.Math.ListN.{get_elem?};
ghost use Rattle.rules.specs.Syntax.{Relation, Program};
ghost use Rattle.rules.specs.Inner.{RelationsAt};
ghost use Rattle.rules.specs.Settings.{most_relations, scratch_words};
ghost use Rattle.engine.specs.Layout.{relations_area};
ghost use Rattle.engine.specs.Memory.{TableIn};
ghost use Rattle.engine.specs.Trail.{Same};
ghost use Rattle.engine.specs.Take.{RelationIs};

use crate::layout::RELATIONS;
use crate::terms::walk::part_at;

// A relation: its counts, and where its goal is.
#[derive(Clone, Copy)]
pub struct RelationHead {
    pub params: u32,
    pub vars: u32,
    pub body: u32,
}

pub(crate) fn fill_relations(program: &[u32], scratch: &mut [u32])
    requires { (P : Program) × RelationsAt program.now 0 P × (length P ≤ most_relations) × (scratch_words ≤ length scratch.old) }
    ensures { ((P : Program) → RelationsAt program.now 0 P → length P ≤ most_relations → TableIn program.now scratch.new P)
        × Same scratch.old scratch.new 0 relations_area }
{
    let mut at = 0;
    let mut number = 0;
    while (at as usize) < program.len() {
        scratch[RELATIONS + number] = at;
        at = at + 1 + part_at(program, at).payload;
        number += 1;
    }
}

pub(crate) fn relation(program: &[u32], scratch: &[u32], number: u32) -> RelationHead
    requires { (P : Program) × (R : Relation) × TableIn program.now scratch.now P × (get_elem? P number ≡ some R) × (scratch_words ≤ length scratch.now) }
    ensures { (P : Program) (R : Relation) → TableIn program.now scratch.now P → get_elem? P number ≡ some R
        → RelationIs program.now result.params result.vars result.body R }
{
    let at = scratch[RELATIONS + number as usize];
    RelationHead {
        params: part_at(program, at + 1).payload,
        vars: part_at(program, at + 2).payload,
        body: at + 3,
    }
}
