//! Values with the objects that they own.
ghost use Rattle.std.specs.Prelude.{◌≡◌};
ghost use Rattle.std.specs.FinMap.{len};

use ink_base::{Items, Object, ObjectId, Value};
use std::marker::Model;

/// Some values, and objects of which no two have one name.
///
/// A contract sees the code machine's parcel: the list of the values, and the objects as a finite map from their names.
#[derive(Debug, Drop)]
pub struct Parcel {
    pub(crate) values: Items<Value>,
    pub(crate) objects: Vec<(ObjectId, Object)>,
}

impl Model for Parcel {
    ghost use Rattle.std.specs.Prelude.{List, refl};
    ghost use Rattle.std.specs.Coded.{code_by, coded×, coded_list};
    ghost use Rattle.std.specs.FinMap.{code, from_entries};
    ghost use Rattle.ink_base.specs.Ident.{coded_id};
    ghost use Rattle.ink_base.specs.declared.value.Value.{Value as OneValue};
    ghost use Rattle.ink_base.specs.contracts.value.Value as value;
    ghost use Rattle.ink_base.specs.Objects.{Objects};
    ghost use Rattle.ink_heap.specs.Pairs.{AreApart};
    ghost use Rattle.ink_base.specs.contracts.object.Object as object;
    ghost use Rattle.ink_code.specs.Trees as trees;

    ghost Value = { trees.Parcel };

    ghost coded = { code_by (List OneValue × Objects) (coded× (coded_list value.the_row.coded) (code coded_id object.the_row.coded)) (λ p. (p.values, p.objects)) (λ p. record { values = p.0; objects = p.1 }) (λ _. refl) };

    ghost view = { λ p. record { values = p.values; objects = from_entries p.objects.items } };

    ghost invariant = { λ p. AreApart p.objects.items };
}

impl Parcel {
    /// The values.
    pub fn values(&self) -> &[Value]
        ensures { result.now ≡ self.now.values }
    {
        self.values.as_slice()
    }

    /// How many objects there are.
    pub fn object_count(&self) -> u64
        ensures { result ≡ len self.now.objects }
    {
        self.objects.len() as u64
    }
}
