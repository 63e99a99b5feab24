// Tags of constructors, places of labels, and numbers of strings, found by hash.
ghost use Rattle.std.specs.Prelude.{◌≡◌, ℕ, List, map, length, reverse, option_map, slice_get, IfOk};
ghost use Rattle.ty_core.specs.TypesOf.{head_of};
ghost use Rattle.ir_mono.specs.Types.{Row, node_at};
ghost use Rattle.closure_convert.specs.Scope.{index_of};
ghost use Rattle.closure_meaning.specs.Convert.{con_tag, label_index, labels_in};
ghost use Rattle.flow_types.specs.of_closure_whole.Converted.{text_index};
ghost use Rattle.closure_parts.specs.Indexed.{Finds, place_in, number_next, constructor_numbers, label_key, label_keys, keys_by, AreFound};
ghost use Rattle.closure_parts.specs.Indexed.{ArePlaces, AreTexts, FindsTexts, text_in, texts_of};

use indexmap::IndexMap;
use ir_uses::constructor::{FALSE, TRUE};
use mlc_base::memory::NoMemory;
use mlc_names::label::Label;
use mono_types::constructors::Constructors;
use mono_types::types::{Types, View};
use std::alloc::Global;
use ty_core::ty::Head;

/// The number of the type of truth values.
const BOOL: usize = 1;

/// Places of numbers, found by hash, and how many there are.
#[derive(Drop)]
struct Index {
    places: IndexMap<usize, usize>,
    count: usize,
}

impl Index {
    /// The places of these numbers, where the first of each counts.
    fn of(alloc: Global, keys: &[usize]) -> Result<Index, NoMemory>
        ensures { IfOk result (λ index. Finds index keys.now) }
    {
        let mut places = IndexMap::new(alloc);
        let mut left = keys.len();
        while left > 0 {
            left -= 1;
            let _ = places.insert(keys[left], left)?;
        }
        Ok(Index {
            places,
            count: keys.len(),
        })
    }

    /// The place of a number; the count of all, where it isn't there.
    fn place(&self, key: usize) -> usize
        ensures { result ≡ place_in self.now key }
    {
        match self.places.get(&key) {
            Some(place) => *place,
            None => self.count,
        }
    }
}

/// By number of type, the places of its constructors and of its labels; by number of string, the number of the first that is equal.
#[derive(Drop)]
pub struct Places {
    tags: Vec<Index>,
    labels: Vec<Index>,
    texts: Vec<usize>,
    empty: usize,
}

/// The number of the constructor that was the i-th to come, if there is one.
fn push_number(
    constructors: &Constructors,
    i: usize,
    numbers: &mut Vec<usize>,
) -> Result<(), NoMemory>
    ensures { IfOk result (λ _. numbers.new.items ≡ number_next numbers.old.items (option_map (λ k. k.0) (slice_get (reverse constructors.now) i))) }
{
    match constructors.number_at(i) {
        Some(number) => {
            numbers.push(number)?;
            Ok(())
        }
        None => Ok(()),
    }
}

/// The numbers of constructors, the latest first.
fn numbers_of(alloc: Global, constructors: &Constructors) -> Result<Vec<usize>, NoMemory>
    ensures { IfOk result (λ numbers. numbers.items ≡ map (λ k. k.0) constructors.now) }
{
    let mut numbers = Vec::new(alloc);
    for i in 0..constructors.len() {
        push_number(constructors, i, &mut numbers)?;
    }
    numbers.reverse();
    Ok(numbers)
}

fn tags_at(alloc: Global, types: &Types, ty: usize) -> Result<Index, NoMemory>
    ensures { IfOk result (λ index. Finds index (constructor_numbers types.now ty)) }
{
    match types.constructors(ty) {
        Some(constructors) => {
            let numbers = numbers_of(alloc, constructors)?;
            Index::of(alloc, &numbers)
        }
        None => Index::of(alloc, &[]),
    }
}

/// The number of a label.
fn key(label: Label) -> usize
    ensures { result ≡ label_key label }
{
    match label {
        Label::Number(number) => number as usize + number as usize,
        Label::Word(name) => name.number() as usize + name.number() as usize + 1,
    }
}

fn keys_of(alloc: Global, labels: &[Label]) -> Result<Vec<usize>, NoMemory>
    ensures { IfOk result (λ keys. keys.items ≡ map label_key labels.now) }
{
    let mut keys = Vec::new(alloc);
    for i in 0..labels.len() {
        let own = key(labels[i]);
        keys.push(own)?;
    }
    Ok(keys)
}

fn labels_by(alloc: Global, head: &Head) -> Result<Index, NoMemory>
    ensures { IfOk result (λ index. Finds index (keys_by (head_of head.now))) }
{
    match head {
        Head::Record(labels) => {
            let keys = keys_of(alloc, labels)?;
            Index::of(alloc, &keys)
        }
        Head::Function => Index::of(alloc, &[]),
        Head::Named(_) => Index::of(alloc, &[]),
    }
}

fn labels_at(alloc: Global, types: &Types, ty: usize) -> Result<Index, NoMemory>
    ensures { IfOk result (λ index. Finds index (label_keys types.now ty)) }
{
    match types.view(ty) {
        View::Nothing => Index::of(alloc, &[]),
        View::Apply(head, _) => labels_by(alloc, head),
    }
}

fn all_tags(alloc: Global, types: &Types) -> Result<Vec<Index>, NoMemory>
    ensures { IfOk result (λ found. AreFound found.items (length types.now) (constructor_numbers types.now)) }
{
    let mut found = Vec::new(alloc);
    for ty in 0..types.len() {
        let own = tags_at(alloc, types, ty)?;
        found.push(own)?;
    }
    Ok(found)
}

fn all_labels(alloc: Global, types: &Types) -> Result<Vec<Index>, NoMemory>
    ensures { IfOk result (λ found. AreFound found.items (length types.now) (label_keys types.now)) }
{
    let mut found = Vec::new(alloc);
    for ty in 0..types.len() {
        let own = labels_at(alloc, types, ty)?;
        found.push(own)?;
    }
    Ok(found)
}

/// The number of the first string that is equal to each.
fn first_texts(alloc: Global, strings: &[Vec<u8>]) -> Result<IndexMap<Vec<u8>, usize>, NoMemory>
    ensures { IfOk result (λ first. FindsTexts first.entries (texts_of strings.now)) }
{
    let mut first = IndexMap::new(alloc);
    let mut left = strings.len();
    while left > 0 {
        left -= 1;
        let text = Vec::from_slice(alloc, &strings[left])?;
        let _ = first.insert(text, left)?;
    }
    Ok(first)
}

/// The number of the first string that is equal to this one; the count of all, where none is.
fn text_place(strings: &[Vec<u8>], first: &IndexMap<Vec<u8>, usize>, text: &[u8]) -> usize
    requires { FindsTexts first.now.entries (texts_of strings.now) }
    ensures { result ≡ text_index text.now (texts_of strings.now) }
{
    match first.get(text) {
        Some(place) => *place,
        None => strings.len(),
    }
}

fn text_places(
    alloc: Global,
    strings: &[Vec<u8>],
    first: &IndexMap<Vec<u8>, usize>,
) -> Result<Vec<usize>, NoMemory>
    requires { FindsTexts first.now.entries (texts_of strings.now) }
    ensures { IfOk result (λ texts. texts.items ≡ map (λ s. text_index s (texts_of strings.now)) (texts_of strings.now)) }
{
    let mut texts = Vec::new(alloc);
    for i in 0..strings.len() {
        let place = text_place(strings, first, &strings[i]);
        texts.push(place)?;
    }
    Ok(texts)
}

/// The places of a program's types and strings.
pub fn find_places(alloc: Global, types: &Types, strings: &[Vec<u8>]) -> Result<Places, NoMemory>
    ensures places { IfOk result (λ places. ArePlaces places types.now) }
    ensures texts { IfOk result (λ places. AreTexts places (texts_of strings.now)) }
{
    let first = first_texts(alloc, strings)?;
    let texts = text_places(alloc, strings, &first)?;
    let empty = text_place(strings, &first, &[]);
    let tags = all_tags(alloc, types)?;
    let labels = all_labels(alloc, types)?;
    Ok(Places {
        tags,
        labels,
        texts,
        empty,
    })
}

impl Places {
    /// The place of a constructor among those of its type, the latest first; the count of them where it isn't there.
    fn place(&self, ty: usize, constructor: usize) -> usize
        ensures { (types : List Row) → ArePlaces self.now types → result ≡ index_of constructor (constructor_numbers types ty) }
    {
        if ty >= self.tags.len() {
            return 0;
        }
        let tags = &self.tags[ty];
        tags.place(constructor)
    }

    /// The tag of a constructor. Of truth values false and true have the first two.
    pub fn tag(&self, ty: usize, constructor: usize) -> Result<usize, NoMemory>
        ensures { IfOk result (λ tag. (types : List Row) → ArePlaces self.now types → tag ≡ con_tag types ty constructor) }
    {
        let place = self.place(ty, constructor);
        if ty != BOOL {
            return Ok(place);
        }
        if constructor == FALSE {
            return Ok(0);
        }
        if constructor == TRUE {
            return Ok(1);
        }
        match place.checked_add(2) {
            Some(tag) => Ok(tag),
            None => Err(NoMemory),
        }
    }

    /// The place of a label's number among those of a type; the count of them where it isn't there.
    fn label_place(&self, ty: usize, key: usize) -> usize
        ensures { (types : List Row) → ArePlaces self.now types → result ≡ index_of key (label_keys types ty) }
    {
        if ty >= self.labels.len() {
            return 0;
        }
        let labels = &self.labels[ty];
        labels.place(key)
    }

    /// The place of a label in records of a type; the count of labels where it isn't there.
    pub fn label(&self, ty: usize, label: Label) -> usize
        ensures { (types : List Row) → ArePlaces self.now types → result ≡ label_index label (labels_in (node_at types ty)) }
    {
        self.label_place(ty, key(label))
    }

    /// The number of the first string that is equal to this one.
    pub fn text(&self, number: usize) -> usize
        ensures { result ≡ text_in self.now number }
    {
        if number < self.texts.len() {
            self.texts[number]
        } else {
            self.empty
        }
    }
}
