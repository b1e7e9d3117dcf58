//! Lists that are filled from others.
ghost use Rattle.std.specs.Prelude.{◌≡◌, OnOk};
ghost use Rattle.word_states.specs.Words.{addresses_of};

use fcp_model::NoMemory;

/// Fills a list with addresses.
pub(crate) fn put_all(list: &mut Vec<u32>, addresses: &[u32]) -> Result<(), NoMemory>
    ensures { OnOk result (list.new.items ≡ addresses.now) }
{
    list.clear();
    match list.extend_from_slice(addresses) {
        Ok(()) => Ok(()),
        Err(_) => Err(NoMemory),
    }
}

/// Fills a list with the addresses of bindings, in their order.
pub(crate) fn put_addresses(list: &mut Vec<u32>, binds: &[(u32, u64)]) -> Result<(), NoMemory>
    ensures { OnOk result (list.new.items ≡ addresses_of binds.now) }
{
    list.clear();
    for bind in binds {
        if list.push(bind.0).is_err() {
            return Err(NoMemory);
        }
    }
    Ok(())
}
