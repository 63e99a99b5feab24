// Whether tables are well formed.
ghost use Rattle.std.specs.Prelude.{◌≡◌, ◌↔◌, map, nat_lt, true, IsTrue};
ghost use Rattle.std.specs.List.{AllByRecursion};
ghost use Rattle.first_values.specs.WellFormed.{AreTables, Rise};
ghost use Rattle.first_tables.specs.TablesOf.{tables_of, items_of, member_of, set_of};
ghost use Rattle.first_known.specs.Rows.{IsBelow, ShapeBelow};

use crate::answers::both;
use first_tables::tables::{Member, Shape, Tables};

fn are_below(len: usize, numbers: &[usize]) -> bool
    ensures { IsTrue result ↔ AllByRecursion (IsBelow len) numbers.now }
{
    let mut all = true;
    for i in 0..numbers.len() {
        let number = numbers[i];
        all = both(all, number < len);
    }
    all
}

fn parts_are_below(len: usize, parts: &[Vec<usize>]) -> bool
    ensures { IsTrue result ↔ AllByRecursion (AllByRecursion (IsBelow len)) (map items_of parts.now) }
{
    let mut all = true;
    for i in 0..parts.len() {
        let numbers = &parts[i];
        all = both(all, are_below(len, numbers));
    }
    all
}

fn is_shape(len: usize, shape: &Shape) -> bool
    ensures { IsTrue result ↔ ShapeBelow len shape.now }
{
    match shape {
        Shape::Numbers => true,
        Shape::Texts => true,
        Shape::Cells(parts) => parts_are_below(len, parts),
        Shape::References => true,
        Shape::Opaque => true,
    }
}

fn are_shapes(len: usize, shapes: &[Shape]) -> bool
    ensures { IsTrue result ↔ AllByRecursion (ShapeBelow len) shapes.now }
{
    let mut all = true;
    for i in 0..shapes.len() {
        let shape = &shapes[i];
        all = both(all, is_shape(len, shape));
    }
    all
}

fn rises(set: &[Member]) -> bool
    ensures { IsTrue result ↔ Rise (map member_of set.now) }
{
    let mut all = true;
    for i in 1..set.len() {
        let before = set[i - 1];
        let member = set[i];
        all = both(all, before.tag < member.tag);
    }
    all
}

fn all_rise(sets: &[Vec<Member>]) -> bool
    ensures { IsTrue result ↔ AllByRecursion Rise (map set_of sets.now) }
{
    let mut all = true;
    for i in 0..sets.len() {
        let set = &sets[i];
        all = both(all, rises(set));
    }
    all
}

fn are_bytes(text: &[u8]) -> bool
    ensures { IsTrue result ↔ AllByRecursion (IsBelow 256) text.now }
{
    let mut all = true;
    for i in 0..text.len() {
        let byte = text[i];
        all = both(all, (byte as usize) < 256);
    }
    all
}

fn are_texts(strings: &[Vec<u8>]) -> bool
    ensures { IsTrue result ↔ AllByRecursion (AllByRecursion (IsBelow 256)) (map items_of strings.now) }
{
    let mut all = true;
    for i in 0..strings.len() {
        let text = &strings[i];
        all = both(all, are_bytes(text));
    }
    all
}

/// Whether tables are well formed.
pub fn are_tables(tables: &Tables) -> bool
    ensures { IsTrue result ↔ AreTables (tables_of tables.now) }
{
    let initial = tables.initial.len() == 7;
    let texts = are_texts(&tables.strings);
    let shapes = are_shapes(tables.types.len(), &tables.types);
    let sets = all_rise(&tables.sets);
    both(both(initial, texts), both(shapes, sets))
}
