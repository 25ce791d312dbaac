ghost use Rattle.std.specs.Prelude.{◌≡◌, [], position, OnOk, OnErr};
ghost use Rattle.std.specs.Option.{option_copied};
ghost use Rattle.xattr_body.specs.Edits.{value_of, with_pair, without};
ghost use Rattle.xattr_body.specs.Section.{same_name};
ghost use Rattle.std.specs.Cmp.Lexicographic.{pointwise, lists_per, lists_equiv};
ghost use Rattle.std.specs.Cmp.{partial_equiv_from_equiv};
ghost use Rattle.xattr_body.specs.Equal.{same_pair, same_pair_equiv};
ghost use Rattle.xattr_body.specs.declared.xattrs.XattrFault.TheVariants as faults;

use kv_edge::{Bytes, NoMemory};
use std::alloc::{AllocError, AllocFailed, Global};
use std::marker::Model;

/// Why no attributes were read.
#[derive(Clone, Copy, Debug, PartialEq, Eq)]
pub enum XattrFault {
    /// The bytes are no section. The place is 0 where the first four bytes aren't the length of what
    /// follows, else that of the first pair, counted from its length, that is none or whose name
    /// stood before.
    Bad(usize),
    /// Memory was refused.
    NoMemory,
}

impl From<NoMemory> for XattrFault {
    ghost from_gives = { λ _ fault. fault ≡ faults.NoMemory };

    fn from(_refused: NoMemory) -> XattrFault {
        XattrFault::NoMemory
    }
}

impl<T: Drop> From<AllocFailed<T>> for XattrFault {
    ghost from_gives = { λ _ fault. fault ≡ faults.NoMemory };

    fn from(_refused: AllocFailed<T>) -> XattrFault {
        XattrFault::NoMemory
    }
}

/// The extended attributes of a document in their order, that contracts see as a list of names and
/// texts.
#[derive(Debug, Drop)]
pub struct Xattrs {
    pairs: Vec<(Bytes, Bytes)>,
}

impl Model for Xattrs {
    ghost use Rattle.std.specs.Prelude.{List, ℕ};
    ghost use Rattle.std.specs.Coded.{coded_list, coded×, coded_ℕ};

    ghost Value = { List (List ℕ × List ℕ) };

    ghost coded = { coded_list (coded× (coded_list coded_ℕ) (coded_list coded_ℕ)) };

    ghost view = { λ xattrs. xattrs.pairs.items };
}

impl Xattrs {
    /// No attributes. It takes no memory.
    pub fn new(alloc: Global) -> Xattrs
        ensures { result ≡ [] }
    {
        Xattrs {
            pairs: Vec::new(alloc),
        }
    }

    /// The attributes that a vector lists, which isn't copied.
    pub(crate) fn from_pairs(pairs: Vec<(Bytes, Bytes)>) -> Xattrs
        ensures { result ≡ pairs.items }
    {
        Xattrs { pairs }
    }

    /// The names and texts, in order.
    pub fn pairs(&self) -> &[(Bytes, Bytes)]
        ensures { result.now ≡ self.now }
    {
        self.pairs.as_slice()
    }
}

impl PartialEq for Xattrs {
    ghost eq = { pointwise same_pair };

    ghost laws = { lists_per (partial_equiv_from_equiv same_pair_equiv) };

    fn eq(&self, other: &Self) -> bool {
        self.pairs() == other.pairs()
    }
}

impl Eq for Xattrs {
    ghost laws = { lists_equiv same_pair_equiv };
}

/// The text of the attribute of a name. It looks at the names one by one.
pub fn get<'a>(xattrs: &'a Xattrs, name: &[u8]) -> Option<&'a Bytes>
    ensures { option_copied result ≡ value_of name.now xattrs.now }
{
    for pair in &xattrs.pairs {
        if pair.0.as_slice() == name {
            return Some(&pair.1);
        }
    }
    None
}

/// Gives the attribute of a name a text: in its place where the name has one, else as the last. At
/// `Err` the attributes are as before, and the name and the text are dropped.
pub fn put(xattrs: &mut Xattrs, name: Bytes, value: Bytes) -> Result<(), NoMemory>
    ensures ok { OnOk result (xattrs.new ≡ with_pair name value xattrs.old) }
    ensures err { OnErr result (xattrs.new ≡ xattrs.old) }
{
    match place_of(&xattrs.pairs, name.as_slice()) {
        Some(place) => {
            let pair = &mut xattrs.pairs[place];
            pair.1 = value;
        }
        None => xattrs.pairs.push((name, value))?,
    }
    Ok(())
}

/// Takes the attribute of a name away, and answers its text. The others stay in their order.
pub fn remove(xattrs: &mut Xattrs, name: &[u8]) -> Option<Bytes>
    ensures before { result ≡ value_of name.now xattrs.old }
    ensures removed { xattrs.new ≡ without name.now xattrs.old }
{
    match place_of(&xattrs.pairs, name) {
        Some(place) => {
            let (_name, value) = xattrs.pairs.remove(place);
            Some(value)
        }
        None => None,
    }
}

/// The place of the first pair of a name.
fn place_of(pairs: &[(Bytes, Bytes)], name: &[u8]) -> Option<usize>
    ensures { result ≡ position (λ pair. same_name pair.0 name.now) pairs.now }
{
    pairs.iter().position(|pair| pair.0.as_slice() == name)
}
