//! Indexes of systems: a tree of the left sides, which are read from the end.
ghost use Rattle.std.specs.Prelude.{◌≡◌, ℤ, List, ◌∷◌, [], ◌++◌, ◌+◌, ◌<◌, ◌≤◌, ◌^◌, length, vec_capacity, slice_get, Some, IfOk, OnOk, OnErr};
ghost use Rattle.mg_rules.specs.Rule.{Rule};
ghost use Rattle.mg_rules.specs.First.{IsLeastEnd};
ghost use Rattle.mg_rules.specs.Index.{code, fresh, grown, IsLesser, IsWide, IsBelow, Reaches, IsIndexOf};

use crate::rules::Rules;
use mg_lists::NoMemory;
use mg_words::Letter;
use std::alloc::{AllocError, Global};
use std::marker::Model;

// How long a node's table is. The code of a letter is the place of its generator twice, and one
// more for an inverse: from 2 to 129.
const WIDTH: usize = 130;

// How many nodes a tree has at most.
const MOST_NODES: usize = u32::MAX as usize;

// A node of the tree, which is reached by the letters of a word from its end.
#[derive(Debug, Drop)]
struct Node {
    least: usize,
    below: [u32; WIDTH],
}

/// An index of a system, with which words are rewritten: a tree of the left sides, read from the
/// end, in which each node knows the least rule whose left side is just the word that leads there.
#[derive(Debug, Drop)]
pub struct RuleIndex {
    nodes: Vec<Node>,
}

impl Model for RuleIndex {
    ghost use Rattle.std.specs.Prelude.{List as ListOf};
    ghost use Rattle.mg_rules.specs.declared.index.Node.{Node};

    ghost Value = { ListOf Node };

    ghost view = { λ index. index.nodes.items };
}

// The place of a letter in a node's table.
fn code(letter: Letter) -> usize
    ensures code { result ≡ code letter }
    ensures within { result < WIDTH }
{
    2 * usize::from(letter.generator) + usize::from(letter.inverse)
}

// The node below a node by a letter, and 0 where there is none.
fn below(nodes: &[Node], node: usize, letter: Letter) -> usize
    requires { IsWide nodes.now node }
    ensures { IsBelow nodes.now node letter result }
{
    nodes[node].below[code(letter)] as usize
}

// The lesser of two numbers, where 0 stands for none.
fn lesser(a: usize, b: usize) -> usize
    ensures { IsLesser a b result }
{
    if a == 0 {
        return b;
    }
    if b == 0 || a < b {
        return a;
    }
    b
}

// Makes room for so many nodes more; their numbers are to fit 32 bits.
fn make_room(nodes: &mut Vec<Node>, count: usize) -> Result<(), NoMemory>
    ensures stay { nodes.new.items ≡ nodes.old.items }
    ensures room { OnOk result (length nodes.new.items + count ≤ vec_capacity nodes.new) }
    ensures small { OnOk result (length nodes.new.items + count ≤ 2 ^ 32) }
{
    if nodes.len() > MOST_NODES || count > MOST_NODES - nodes.len() {
        return Err(AllocError);
    }
    nodes.reserve(count)
}

// Puts an empty node below a node by a letter, where there is room for it; answers its place.
fn grow(nodes: &mut Vec<Node>, node: usize, letter: Letter) -> usize
    requires there { node < length nodes.old.items }
    requires room { length nodes.old.items < vec_capacity nodes.old }
    requires small { length nodes.old.items < 2 ^ 32 }
    ensures grown { (old : Node) → slice_get nodes.old.items node ≡ Some old →
        nodes.new.items ≡ grown nodes.old.items node old letter }
    ensures place { result ≡ length nodes.old.items }
    ensures capacity { vec_capacity nodes.old ≤ vec_capacity nodes.new }
{
    let place = nodes.len();
    nodes[node].below[code(letter)] = place as u32;
    match nodes.push(Node {
        least: 0,
        below: [0; WIDTH],
    }) {
        Ok(()) => {}
        Err(_) => unreachable!(),
    }
    place
}

// The node below a node by a letter. Where there is none one is put in, for which there is room.
fn node_below(nodes: &mut Vec<Node>, node: usize, letter: Letter) -> usize
    requires there { IsWide nodes.old.items node }
    requires room { length nodes.old.items < vec_capacity nodes.old }
    requires small { length nodes.old.items < 2 ^ 32 }
    ensures index { (rules : List Rule) (w : List ℤ) → IsIndexOf rules nodes.old.items →
        Reaches nodes.old.items w node → IsIndexOf rules nodes.new.items ×
        Reaches nodes.new.items (letter ∷ w) result }
    ensures capacity { vec_capacity nodes.old ≤ vec_capacity nodes.new }
    ensures length { length nodes.new.items ≤ length nodes.old.items + 1 }
{
    let next = below(nodes, node, letter);
    if next > 0 {
        return next;
    }
    grow(nodes, node, letter)
}

// The node that a word leads to. Where there is none nodes are put in, for which there is room.
fn node_of(nodes: &mut Vec<Node>, word: &[Letter]) -> usize
    requires index { (rules : List Rule) × IsIndexOf rules nodes.old.items }
    requires room { length nodes.old.items + length word.now ≤ vec_capacity nodes.old }
    requires small { length nodes.old.items + length word.now ≤ 2 ^ 32 }
    ensures index { (rules : List Rule) → IsIndexOf rules nodes.old.items →
        IsIndexOf rules nodes.new.items }
    ensures reached { Reaches nodes.new.items word.now result }
{
    let mut node = 0;
    let mut at = word.len();
    while at > 0 {
        at -= 1;
        node = node_below(nodes, node, word[at]);
    }
    node
}

// Tells a node of a rule behind those that are known.
fn note(nodes: &mut Vec<Node>, node: usize, number: usize)
    requires there { node < length nodes.old.items }
    ensures index { (others : List Rule) (last : Rule) → IsIndexOf others nodes.old.items →
        Reaches nodes.old.items last.left node → number ≡ length others + 1 →
        IsIndexOf (others ++ last ∷ []) nodes.new.items }
{
    if nodes[node].least == 0 {
        nodes[node].least = number;
    }
}

// A tree that is the root alone.
fn root(alloc: Global) -> Result<Vec<Node>, NoMemory>
    ensures { IfOk result (λ nodes. nodes.items ≡ fresh ∷ []) }
{
    let mut nodes = Vec::new(alloc);
    nodes.push(Node {
        least: 0,
        below: [0; WIDTH],
    })?;
    Ok(nodes)
}

// The least number of a rule whose left side ends the word, and 0 where there is none.
fn look_up(nodes: &[Node], word: &[Letter]) -> usize
    requires { (rules : List Rule) × IsIndexOf rules nodes.now }
    ensures { (rules : List Rule) → IsIndexOf rules nodes.now → IsLeastEnd rules word.now result }
{
    let mut node = 0;
    let mut found = nodes[0].least;
    let mut at = word.len();
    while at > 0 {
        at -= 1;
        node = below(nodes, node, word[at]);
        if node == 0 {
            return found;
        }
        found = lesser(found, nodes[node].least);
    }
    found
}

impl RuleIndex {
    /// The index of a system.
    pub fn make(alloc: Global, rules: &Rules) -> Result<RuleIndex, NoMemory>
        ensures { IfOk result (λ index. IsIndexOf rules.now index) }
    {
        let mut index = RuleIndex {
            nodes: root(alloc)?,
        };
        for (place, pair) in rules.pairs().iter().enumerate() {
            index.insert(pair.left.letters(), place + 1)?;
        }
        Ok(index)
    }

    /// Takes in the last rule of a system of which the others are known.
    pub fn add(&mut self, rules: &Rules) -> Result<(), NoMemory>
        requires { (others : List Rule) × (last : Rule) ×
            (rules.now ≡ others ++ last ∷ []) × IsIndexOf others self.old }
        ensures ok { OnOk result (IsIndexOf rules.now self.new) }
        ensures err { OnErr result (self.new ≡ self.old) }
    {
        let pairs = rules.pairs();
        let last = &pairs[pairs.len() - 1];
        self.insert(last.left.letters(), pairs.len())?;
        Ok(())
    }

    // Takes in a rule with this left side, behind those that are known.
    fn insert(&mut self, left: &[Letter], number: usize) -> Result<(), NoMemory>
        requires { (others : List Rule) × IsIndexOf others self.old }
        ensures ok { OnOk result ((others : List Rule) (last : Rule) → IsIndexOf others self.old →
            last.left ≡ left.now → number ≡ length others + 1 →
            IsIndexOf (others ++ last ∷ []) self.new) }
        ensures err { OnErr result (self.new ≡ self.old) }
    {
        make_room(&mut self.nodes, left.len())?;
        let node = node_of(&mut self.nodes, left);
        note(&mut self.nodes, node, number);
        Ok(())
    }

    // The least number of a rule whose left side ends the word, and 0 where there is none.
    pub(crate) fn least_end(&self, _rules: &Rules, word: &[Letter]) -> usize
        requires { IsIndexOf _rules.now self.now }
        ensures { IsLeastEnd _rules.now word.now result }
    {
        look_up(&self.nodes, word)
    }
}
