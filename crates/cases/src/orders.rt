//! Cases of orders: which file goes first.
use crate::json::{item, items, member, number_at, optional_word, word};
use anyhow::{Context, Result};
use prioritizer::{Order, Prioritizer, Rank};
use serde_json::Value;
use std::alloc::{AllocError, Global};

/// The arrival numbers of some files, in the order that prioritizers of these names make.
pub fn put_sorted(out: &mut String, alloc: Global, names: &Value, case: &Value) -> Result<()> {
    let mut ranks = ranks_of(alloc, items(member(case, "ranks")?)?.as_slice())?;
    let order = order_of(alloc, items(names)?.as_slice())?.copy()?;
    ranks.sort_by(|a, b| order.compare(a, b))?;
    Ok(put_arrivals(out, ranks.as_slice())?)
}

fn put_arrivals(out: &mut String, ranks: &[Rank]) -> Result<(), AllocError> {
    out.push_str("order")?;
    for rank in ranks {
        let arrival = rank.arrival;
        write!(out, " {arrival}")?;
    }
    Ok(())
}

/// How two values of `priority` compare, in files that are alike else, and how they do the other way round.
pub fn put_compared(out: &mut String, alloc: Global, pair: &Value) -> Result<()> {
    let one = rank_with(optional_word(item(pair, 0)?)?);
    let other = rank_with(optional_word(item(pair, 1)?)?);
    let order = Order::new(vec![in alloc; Prioritizer::PriorityAttribute]?);
    let there = order.compare(&one, &other);
    let back = order.compare(&other, &one);
    Ok(write!(out, "{there:?}, and back {back:?}")?)
}

/// The prioritizer of a name.
pub fn put_named(out: &mut String, name: &Value) -> Result<()> {
    let name = match Prioritizer::named(word(name)?) {
        Some(found) => found.name(),
        None => "unknown",
    };
    Ok(out.push_str(name)?)
}

fn order_of(alloc: Global, names: &[Value]) -> Result<Order> {
    let mut list = Vec::new(alloc);
    for name in names {
        list.push(Prioritizer::named(word(name)?).context("no prioritizer")?)?;
    }
    Ok(Order::new(list))
}

fn ranks_of(alloc: Global, values: &[Value]) -> Result<Vec<Rank<'_>>> {
    let mut ranks = Vec::new(alloc);
    for value in values {
        ranks.push(rank_of(value)?)?;
    }
    Ok(ranks)
}

// A list of a file's priority, the moment at which its data entered, and its arrival.
fn rank_of(rank: &Value) -> Result<Rank<'_>> {
    Ok(Rank {
        priority: optional_word(item(rank, 0)?)?,
        entered: number_at(rank, 1)?,
        arrival: number_at(rank, 2)?,
    })
}

fn rank_with(priority: Option<&str>) -> Rank<'_> {
    Rank {
        priority,
        entered: 1,
        arrival: 1,
    }
}
