//! The values that have been found for each stop so far.
ghost use Rattle.std.specs.Prelude.{◌≡◌, ◌<◌, [], IfOk, OnOk, length, map, replicate, set, int_le};
ghost use Rattle.reach_all.specs.Arriving.{with_value};
ghost use Rattle.reach_all.specs.Reach.{values_at};

use std::alloc::Global;
use std::marker::Model;
use tb_base::{Memory, StopNo, Value};

// Values by the stop where one arrives.
#[derive(Drop)]
pub(crate) struct Arrivals {
    rows: Vec<Vec<Value>>,
}

impl Model for Arrivals {
    ghost use Rattle.std.specs.Prelude.{List, map};
    ghost use Rattle.tb_base.specs.declared.query.Value.{Value as ValueData};

    ghost Value = { List (List ValueData) };

    ghost view = { λ a. map (λ row. row.items) a.rows.items };
}

// Whether the last value arrives no later than another.
fn is_as_early(last: &Value, value: &Value) -> bool
    ensures { result ≡ int_le last.now.arrive value.now.arrive }
{
    last.arrive <= value.arrive
}

// Adds a value to values by rides, unless the last of them arrives as early.
fn add(values: &mut Vec<Value>, value: &Value) -> Result<(), Memory>
    ensures { OnOk result (values.new.items ≡ with_value values.old.items value.now) }
{
    let Some(last) = values.last().copied() else {
        values.push(*value)?;
        return Ok(());
    };
    if is_as_early(&last, value) {
        return Ok(());
    }
    if last.rides == value.rides {
        let end = values.len() - 1;
        values[end] = *value;
        return Ok(());
    }
    values.push(*value)?;
    Ok(())
}

// Offers a value to the stop with this number.
fn offer_at(rows: &mut Vec<Vec<Value>>, stop: usize, value: &Value) -> Result<(), Memory>
    requires { stop < length rows.old.items }
    ensures { OnOk result (map (λ row. row.items) rows.new.items
        ≡ set (map (λ row. row.items) rows.old.items) stop
        (with_value (values_at (map (λ row. row.items) rows.old.items) stop) value.now)) }
{
    let row = &mut rows[stop];
    add(row, value)?;
    Ok(())
}

impl Arrivals {
    // No value, for so many stops.
    pub(crate) fn new(alloc: Global, stops: usize) -> Result<Arrivals, Memory>
        ensures { IfOk result (λ arrivals. arrivals ≡ replicate stops []) }
    {
        let mut rows: Vec<Vec<Value>> = Vec::new(alloc);
        for _stop in 0..stops {
            rows.push(Vec::new(alloc))?;
        }
        Ok(Arrivals { rows })
    }

    // Offers a value to a stop.
    pub(crate) fn offer(&mut self, stop: StopNo, value: &Value) -> Result<(), Memory>
        requires { stop < length self.old }
        ensures { OnOk result
            (self.new ≡ set self.old stop (with_value (values_at self.old stop) value.now)) }
    {
        offer_at(&mut self.rows, stop.index(), value)
    }

    // The values by stops, lent.
    pub(crate) fn rows(&self) -> &[Vec<Value>]
        ensures { map (λ row. row.items) result.now ≡ self.now }
    {
        self.rows.as_slice()
    }

    // The values by stops.
    pub(crate) fn into_rows(self) -> Vec<Vec<Value>>
        ensures { map (λ row. row.items) result.items ≡ self }
    {
        self.rows
    }
}
