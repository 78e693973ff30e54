//! Copies, which may want memory.

ghost use Rattle.std.specs.Prelude.{◌≡◌, IfOk};

use crate::value::{Elements, Item, Value};
use base_types::Seq;
use std::alloc::AllocError as NoMemory;
use std::collections::BTreeMap;
use std::default::Emptied;

impl Value {
    /// An equal value.
    #[cycle(copy)]
    pub fn try_clone(&self) -> Result<Value, NoMemory>
        ensures { IfOk result (λ copy. copy ≡ self.now) }
    {
        match self {
            Value::S(text) => Ok(Value::S(text.try_clone()?)),
            Value::N(number) => Ok(Value::N(*number)),
            Value::B(bytes) => Ok(Value::B(bytes.try_clone()?)),
            Value::Bool(flag) => Ok(Value::Bool(*flag)),
            Value::Null => Ok(Value::Null),
            Value::L(list) => Ok(Value::L(list.try_clone()?)),
            Value::M(item) => Ok(Value::M(item.try_clone()?)),
            Value::Ss(texts) => Ok(Value::Ss(texts.try_clone()?)),
            Value::Ns(numbers) => Ok(Value::Ns(numbers.try_clone()?)),
            Value::Bs(binaries) => Ok(Value::Bs(binaries.try_clone()?)),
        }
    }
}

impl Item {
    /// An equal item.
    #[cycle(copy)]
    pub fn try_clone(&self) -> Result<Item, NoMemory>
        ensures { IfOk result (λ copy. copy ≡ self.now) }
    {
        let mut copies = BTreeMap::emptied(&self.attributes)?;
        for (name, value) in self.attributes.iter() {
            let name = name.try_clone()?;
            drop(copies.insert(name, value.try_clone()?)?);
        }
        Ok(Item { attributes: copies })
    }
}

impl Elements {
    /// An equal list.
    #[cycle(copy)]
    pub fn try_clone(&self) -> Result<Elements, NoMemory>
        ensures { IfOk result (λ copy. copy ≡ self.now) }
    {
        let mut copies = Seq::with_capacity(self.values.allocator(), self.values.len())?;
        for value in self.values.as_slice() {
            copies.push(value.try_clone()?)?;
        }
        Ok(Elements { values: copies })
    }
}

impl Clone for Value {
    ghost is_clone = { λ value copy. copy ≡ value };

    fn clone(&self) -> Result<Value, NoMemory> {
        self.try_clone()
    }
}

impl Clone for Item {
    ghost is_clone = { λ item copy. copy ≡ item };

    fn clone(&self) -> Result<Item, NoMemory> {
        self.try_clone()
    }
}

impl Clone for Elements {
    ghost is_clone = { λ list copy. copy ≡ list };

    fn clone(&self) -> Result<Elements, NoMemory> {
        self.try_clone()
    }
}
