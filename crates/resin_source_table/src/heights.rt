//! Trees with their heights, built by a calculator. Each word takes the trees that it needs from a stack, the last one first, and puts its own there:
//!
//! - `int`, `text`, `null`, `variable`: a leaf;
//! - `+`, `??`, `?:`, `index`: of two trees; `choice`: of three; `-`, `instanceof`, `empty`, `include`, `property`: of one;
//! - `call:N`, `parent:N`, `new:N`, `isset:N`, `join:N`: of the last N trees; `method:N`: of N arguments and the object in front of them;
//! - `value`, `pair`: puts one tree, or two, last in an array; `array`: that array;
//! - `target`: a place `$f`; `at`, `at_property`, `at_next`: a step further, at an index from the stack, at a property, at `[]`;
//! - `read`, `assign`, `++.`, `--.`, `.++`, `.--`: a tree of the place.
//!
//! A tree that isn't there is an int.
use crate::words::truth;
use resin_grammar::operators::{Operator, Writing};
use resin_grammar::place::{
    TallPlace, assignment, post_decrement, post_increment, pre_decrement, pre_increment,
};
use resin_grammar::tall::{Pairs, Tall, Trees};
use resin_items::SharedBytes;
use resin_lex::{Combining, ConstantName, Expr, Import, Unary};
use std::alloc::{AllocError, Global};
use std::mem;

fn name(alloc: Global) -> Result<SharedBytes, AllocError> {
    SharedBytes::from_slice(alloc, b"f")
}

fn target(alloc: Global) -> Result<TallPlace, AllocError> {
    Ok(TallPlace::new(alloc, name(alloc)?))
}

#[derive(Drop)]
struct Calculator {
    trees: Vec<Tall>,
    pairs: Pairs,
    place: TallPlace,
}

/// The last tree of a stack.
fn pop(alloc: Global, trees: &mut Vec<Tall>) -> Result<Tall, AllocError> {
    match trees.pop() {
        Some(tree) => Ok(tree),
        None => Tall::int(alloc, 7),
    }
}

/// The last trees of a stack, in their order there.
fn pop_many(alloc: Global, trees: &mut Vec<Tall>, count: usize) -> Result<Trees, AllocError> {
    let front = trees.len().saturating_sub(count);
    let mut list = Trees::new(alloc);
    for tree in trees.split_off(front)? {
        list.push(tree)?;
    }
    Ok(list)
}

fn leaf(alloc: Global, word: &str) -> Result<Tall, AllocError> {
    match word {
        "text" => Tall::text(alloc, name(alloc)?),
        "null" => Tall::constant(alloc, ConstantName::Null),
        "variable" => Tall::variable(alloc, name(alloc)?),
        _ => Tall::int(alloc, 7),
    }
}

fn of_one(alloc: Global, word: &str, tree: Tall) -> Result<Tall, AllocError> {
    match word {
        "-" => Tall::unary(alloc, Unary::Minus, tree),
        "instanceof" => Tall::instance_of(alloc, tree, name(alloc)?),
        "empty" => Tall::empty(alloc, tree),
        "property" => Tall::property(alloc, tree, name(alloc)?),
        _ => Tall::import(alloc, Import::Include, tree),
    }
}

fn of_two(alloc: Global, word: &str, left: Tall, right: Tall) -> Result<Tall, AllocError> {
    match word {
        "+" => Tall::binary(alloc, Operator::Combine(Combining::Add), left, right),
        "??" => Tall::coalesce(alloc, left, right),
        "?:" => Tall::either(alloc, left, right),
        _ => Tall::index(alloc, left, right),
    }
}

fn of_many(alloc: Global, word: &str, list: Trees) -> Result<Tall, AllocError> {
    match word {
        "call" => Tall::function_call(alloc, name(alloc)?, list),
        "parent" => Tall::parent_call(alloc, name(alloc)?, list),
        "new" => Tall::new_object(alloc, name(alloc)?, list),
        "isset" => Tall::isset(alloc, list),
        _ => Tall::join(alloc, list),
    }
}

fn choice(alloc: Global, trees: &mut Vec<Tall>) -> Result<Tall, AllocError> {
    let other = pop(alloc, trees)?;
    let one = pop(alloc, trees)?;
    let test = pop(alloc, trees)?;
    Tall::choice(alloc, test, one, other)
}

fn method(alloc: Global, trees: &mut Vec<Tall>, count: usize) -> Result<Tall, AllocError> {
    let arguments = pop_many(alloc, trees, count)?;
    let object = pop(alloc, trees)?;
    Tall::method_call(alloc, object, name(alloc)?, arguments)
}

/// The tree that a word makes of a count of trees.
fn counted(alloc: Global, trees: &mut Vec<Tall>, word: &str) -> Result<Tall, AllocError> {
    let (word, count) = word.split_once(':').unwrap_or((word, ""));
    let count = count.parse::<usize>().unwrap_or(0);
    if word == "method" {
        return method(alloc, trees, count);
    }
    let list = pop_many(alloc, trees, count)?;
    of_many(alloc, word, list)
}

/// The tree that a word makes of trees.
fn tree(alloc: Global, trees: &mut Vec<Tall>, word: &str) -> Result<Tall, AllocError> {
    match word {
        "int" | "text" | "null" | "variable" => leaf(alloc, word),
        "-" | "instanceof" | "empty" | "property" | "include" => {
            let tree = pop(alloc, trees)?;
            of_one(alloc, word, tree)
        }
        "+" | "??" | "?:" | "index" => {
            let right = pop(alloc, trees)?;
            let left = pop(alloc, trees)?;
            of_two(alloc, word, left, right)
        }
        "choice" => choice(alloc, trees),
        _ => counted(alloc, trees, word),
    }
}

/// The tree that a word makes of a place.
fn tree_of_place(
    alloc: Global,
    trees: &mut Vec<Tall>,
    place: TallPlace,
    word: &str,
) -> Result<Tall, AllocError> {
    match word {
        "++." => pre_increment(alloc, place),
        "--." => pre_decrement(alloc, place),
        ".++" => post_increment(alloc, place),
        ".--" => post_decrement(alloc, place),
        "read" if !place.has_next() => place.into_tall(alloc),
        _ => {
            let value = pop(alloc, trees)?;
            assignment(alloc, Writing::Assign, place, value)
        }
    }
}

impl Calculator {
    fn new(alloc: Global) -> Result<Calculator, AllocError> {
        Ok(Calculator {
            trees: Vec::new(alloc),
            pairs: Pairs::new(alloc),
            place: target(alloc)?,
        })
    }

    fn push_pair(&mut self, alloc: Global, word: &str) -> Result<(), AllocError> {
        let value = pop(alloc, &mut self.trees)?;
        if word == "value" {
            return self.pairs.push_value(value);
        }
        let key = pop(alloc, &mut self.trees)?;
        self.pairs.push_pair(key, value)
    }

    fn step(&mut self, alloc: Global, word: &str) -> Result<(), AllocError> {
        match word {
            "at" => {
                let index = pop(alloc, &mut self.trees)?;
                self.place.push_index(index)
            }
            "at_property" => self.place.push_property(name(alloc)?),
            _ => self.place.push_next(),
        }
    }

    fn use_place(&mut self, alloc: Global, word: &str) -> Result<(), AllocError> {
        let place = mem::replace(&mut self.place, target(alloc)?);
        let tree = tree_of_place(alloc, &mut self.trees, place, word)?;
        self.trees.push(tree)?;
        Ok(())
    }

    fn array(&mut self, alloc: Global) -> Result<(), AllocError> {
        let pairs = mem::replace(&mut self.pairs, Pairs::new(alloc));
        self.trees.push(Tall::array(alloc, pairs)?)?;
        Ok(())
    }

    fn act(&mut self, alloc: Global, word: &str) -> Result<(), AllocError> {
        match word {
            "value" | "pair" => self.push_pair(alloc, word),
            "array" => self.array(alloc),
            "target" => {
                self.place = target(alloc)?;
                Ok(())
            }
            "at" | "at_property" | "at_next" => self.step(alloc, word),
            "read" | "assign" | "++." | "--." | ".++" | ".--" => self.use_place(alloc, word),
            _ => {
                let tree = tree(alloc, &mut self.trees, word)?;
                self.trees.push(tree)?;
                Ok(())
            }
        }
    }
}

fn built(alloc: Global, words: &str) -> Result<Calculator, AllocError> {
    let mut calculator = Calculator::new(alloc)?;
    for word in words.split(' ') {
        calculator.act(alloc, word)?;
    }
    Ok(calculator)
}

/// How many items all the trees are together.
fn count(alloc: Global, mut trees: Vec<Tall>) -> Result<String, AllocError> {
    let len = trees.len();
    let items = pop_many(alloc, &mut trees, len)?.into_items();
    let count = items.len();
    format!(in alloc; "{count}")
}

/// What is asked of the place: whether it may grow higher, with its height; whether it ends with `[]`; how many steps its path has.
fn about_place(alloc: Global, asked: &str, place: TallPlace) -> Result<String, AllocError> {
    match asked {
        "place" => {
            let (height, low) = (place.height(), truth(place.is_low()));
            format!(in alloc; "{height} {low}")
        }
        "open" => String::from_str(alloc, truth(place.has_next())),
        _ => {
            let steps = place.into_target().path.len();
            format!(in alloc; "{steps}")
        }
    }
}

/// What is asked of the last tree: its height, whether it may grow higher, or whether it is a literal.
fn about_tree(alloc: Global, asked: &str, tree: Tall) -> Result<String, AllocError> {
    match asked {
        "height" => {
            let height = tree.height();
            format!(in alloc; "{height}")
        }
        "low" => String::from_str(alloc, truth(tree.is_low())),
        _ => {
            let is_literal = matches!(tree.into_tree().get(), Expr::Literal(_));
            String::from_str(alloc, truth(is_literal))
        }
    }
}

pub fn answer(alloc: Global, asked: &str, words: &str) -> Result<String, AllocError> {
    let Calculator {
        mut trees,
        pairs: _,
        place,
    } = built(alloc, words)?;
    match asked {
        "place" | "open" | "path" => about_place(alloc, asked, place),
        "trees" => count(alloc, trees),
        _ => {
            let tree = pop(alloc, &mut trees)?;
            about_tree(alloc, asked, tree)
        }
    }
}
