//! Descriptors whose values are pending.

ghost use Rattle.std.specs.Prelude.{◌≡◌, ℕ, ◌+◌, ◌≤◌, ◌++◌, ◌∷◌, [], List, length, take, drop};
ghost use Rattle.std.specs.Prelude.{true, false, vec_capacity, vec_len, MatchResult};
ghost use Rattle.amqp_ser.specs.Carried.{descriptor_content};
ghost use Rattle.amqp_ser.specs.Tree.{Descriptor as Content, Tree};
ghost use Rattle.amqp_value.specs.TreeOf.{tree_of};
ghost use Rattle.amqp_to_value.specs.PendingDescriptors.{DescriptorsState, saved_of};
ghost use Rattle.amqp_to_value.specs.PendingDescriptors.{descriptors_of, under_descriptors};
ghost use Rattle.amqp_to_value.specs.PendingDescriptors.{standing};

use crate::value_error::ValueError;
use amqp_data::{Described, Descriptor};
use amqp_value::Value;
use std::alloc::Global;
use std::marker::Model;
use std::mem;

/// Stack of descriptors awaiting values, outermost first; `Null` is a placeholder for each value.
///
/// The first `kept` descriptors are kept for open compounds. If `next` is true, those after them
/// belong to the next value. Otherwise those after them are not needed once the next compound is
/// opened.
#[derive(Drop)]
pub struct PendingDescriptors {
    stack: Vec<Box<Described<Value>>>,
    kept: usize,
    next: bool,
}

impl Model for PendingDescriptors {
    ghost Value = { DescriptorsState };

    ghost view = { λ a. record {
      kept = descriptors_of (take a.kept a.stack.items);
      later = descriptors_of (drop a.kept a.stack.items);
      next = a.next;
      room = vec_capacity a.stack;
    } };
}

/// The range of the descriptors of an open compound in the stack: the first index and the end.
#[derive(Clone, Copy)]
pub struct Saved {
    first: usize,
    end: usize,
}

impl PendingDescriptors {
    /// Returns an empty stack.
    #[inline(always)]
    pub fn new(alloc: Global) -> PendingDescriptors
        ensures { result.next ≡ false }
    {
        PendingDescriptors {
            stack: Vec::new(alloc),
            kept: 0,
            next: false,
        }
    }

    /// Returns an empty range.
    #[inline(always)]
    pub fn placeholder(&self) -> Saved {
        Saved { first: 0, end: 0 }
    }

    /// Returns the range of the next value's descriptors. Drops those left over from failed values.
    #[inline(always)]
    pub fn save(&mut self) -> Saved
        ensures saved { result ≡ saved_of self.old.kept (standing self.old) }
        ensures kept { self.new.kept ≡ self.old.kept }
        ensures later { self.new.later ≡ standing self.old }
        ensures none { self.new.next ≡ false }
    {
        if !self.next {
            self.stack.truncate(self.kept);
        }
        self.next = false;
        let end = self.stack.len();
        let first = if self.kept < end { self.kept } else { end };
        Saved { first, end }
    }

    /// Keeps the saved descriptors while an element, key, value or field of their compound is
    /// serialized.
    #[inline(always)]
    pub fn keep(&mut self, saved: Saved)
        ensures { (others own later : List Content) → self.old.kept ≡ others →
            self.old.later ≡ own ++ later → self.old.next ≡ false → saved ≡ saved_of others own →
            (self.new.kept ≡ others ++ own) × (self.new.next ≡ false) }
    {
        self.kept = saved.end;
    }

    /// Ends the effect of `keep` after the element, key, value or field.
    #[inline(always)]
    pub fn release(&mut self, saved: Saved)
        ensures parted { (others own rest : List Content) →
            self.old.kept ++ self.old.later ≡ others ++ rest → saved ≡ saved_of others own →
            (self.new.kept ≡ others) × (self.new.later ≡ rest) }
        ensures next { self.new.next ≡ self.old.next }
        ensures room { self.new.room ≡ self.old.room }
    {
        self.kept = saved.first;
    }

    /// Assigns the saved descriptors to the next value. Later ones are dropped.
    #[inline(always)]
    pub fn restore(&mut self, saved: Saved)
        ensures { (others own later : List Content) → self.old.kept ≡ others →
            self.old.later ≡ own ++ later → self.old.next ≡ false → saved ≡ saved_of others own →
            (self.new.kept ≡ others) × (self.new.later ≡ own) × (self.new.next ≡ true) }
    {
        self.stack.truncate(saved.end);
        self.kept = saved.first;
        self.next = true;
    }

    /// Appends a descriptor to the saved ones, innermost, and returns the new range. Drops later
    /// ones.
    ///
    /// # Errors
    /// Returns `OutOfMemory` if an allocation fails.
    #[inline(always)]
    pub fn describe(
        &mut self,
        saved: Saved,
        alloc: Global,
        descriptor: Descriptor,
    ) -> Result<Saved, ValueError>
        ensures { (others own later : List Content) → self.old.kept ≡ others →
            self.old.later ≡ own ++ later → self.old.next ≡ false → saved ≡ saved_of others own →
            MatchResult result
            (λ a. (a ≡ saved_of others (own ++ (descriptor_content descriptor ∷ [])))
            × (self.new.kept ≡ others)
            × (self.new.later ≡ own ++ (descriptor_content descriptor ∷ []))
            × (self.new.next ≡ false))
            (λ e. (e ≡ ValueError.OutOfMemory) × (self.new.kept ≡ others) × (more : List Content)
            × (self.new.later ≡ own ++ more) × (self.new.next ≡ false)) }
    {
        let described = Box::new(
            alloc,
            Described {
                descriptor,
                value: Value::Null,
            },
        )?;
        self.stack.truncate(saved.end);
        self.stack.push(described)?;
        self.kept = saved.first;
        Ok(Saved {
            first: saved.first,
            end: self.stack.len(),
        })
    }

    /// Returns the value inside its descriptors, which are removed. The stack keeps capacity for
    /// them.
    #[inline(always)]
    pub fn wrap(&mut self, value: Value) -> Value
        ensures kept { self.new.kept ≡ self.old.kept }
        ensures none { self.new.next ≡ false }
        ensures room { length (self.old.kept ++ standing self.old) ≤ self.new.room }
        ensures described { tree_of result ≡ under_descriptors (standing self.old) (tree_of value) }
    {
        if !self.next {
            return value;
        }
        self.next = false;
        if self.kept < self.stack.len() {
            wrap_from(&mut self.stack, self.kept, value)
        } else {
            value
        }
    }

    /// Leaves the descriptors of a failed value in the stack, for the compound that serialized the
    /// value.
    #[inline(always)]
    pub fn leave(&mut self)
        ensures kept { self.new.kept ≡ self.old.kept }
        ensures later { self.new.later ≡ self.old.later }
        ensures none { self.new.next ≡ false }
    {
        self.next = false;
    }

    /// Returns the value without its descriptors, which are pushed back onto the stack.
    ///
    /// # Errors
    /// None if the value has the saved descriptors and the stack has capacity for them.
    #[inline(always)]
    pub fn unwrap(&mut self, saved: Saved, value: Value) -> Result<Value, ValueError>
        ensures { (others own : List Content) (t : Tree) → self.old.kept ≡ others →
            self.old.next ≡ false → saved ≡ saved_of others own →
            length (others ++ own) ≤ self.old.room → tree_of value ≡ under_descriptors own t →
            MatchResult result
            (λ v. (tree_of v ≡ t) × (self.new.kept ≡ others) × (self.new.later ≡ own)
            × (self.new.next ≡ false)) (λ _. ⊥) }
    {
        self.stack.truncate(saved.first);
        let inner = unwrap_from(
            &mut self.stack,
            saved.end.saturating_sub(saved.first),
            value,
        );
        self.kept = saved.first;
        inner
    }
}
// Returns the value inside the descriptors from index `first` on, which are removed.
#[inline(never)]
fn wrap_from(stack: &mut Vec<Box<Described<Value>>>, first: usize, value: Value) -> Value
    ensures used { stack.new.items ≡ take first stack.old.items }
    ensures room { vec_capacity stack.new ≡ vec_capacity stack.old }
    ensures described { tree_of result
        ≡ under_descriptors (descriptors_of (drop first stack.old.items)) (tree_of value) }
{
    let mut value = value;
    while first < stack.len() {
        let Some(mut described) = stack.pop() else {
            break;
        };
        described.value = value;
        value = Value::Described(described);
    }
    value
}

// Returns the value inside `count` descriptors, which are pushed onto the stack.
#[inline(never)]
fn unwrap_from(
    stack: &mut Vec<Box<Described<Value>>>,
    count: usize,
    value: Value,
) -> Result<Value, ValueError>
    ensures { (ds : List Content) (t : Tree) → count ≡ length ds →
        vec_len stack.old + count ≤ vec_capacity stack.old →
        tree_of value ≡ under_descriptors ds t →
        MatchResult result
        (λ v. (tree_of v ≡ t)
        × (descriptors_of stack.new.items ≡ descriptors_of stack.old.items ++ ds))
        (λ _. ⊥) }
{
    let mut value = value;
    for _ in 0..count {
        let Value::Described(mut described) = value else {
            return Err(ValueError::InvalidValue);
        };
        value = mem::replace(&mut described.value, Value::Null);
        stack.push(described)?;
    }
    Ok(value)
}
