ghost use Rattle.std.specs.Prelude.{◌≡◌, [], ◌∷◌, ◌++◌, OnOk};

use pci_command::{List, NoMemory};
use std::alloc::Global;
use std::mem;

/// No elements yet.
pub(crate) fn empty<T>(alloc: Global) -> List<T>
    ensures { result ≡ [] }
{
    List::from_vec(Vec::new(alloc))
}

/// One more element, behind the others.
pub(crate) fn push<T: Drop>(alloc: Global, list: &mut List<T>, item: T) -> Result<(), NoMemory>
    ensures { OnOk result (list.new ≡ list.old ++ item ∷ []) }
{
    let mut items = mem::replace(list, empty(alloc)).into_vec();
    items.push(item)?;
    *list = List::from_vec(items);
    Ok(())
}
