// The C entries under their C names: the functions of `vlomdar`, each with its contract. `make` puts the archive of this
// crate where C looks for it, as libvlomdar.a.
#![tactic(auto)]

ghost use Rattle.std.specs.Prelude.{◌≡◌, length};
ghost use Rattle.rules.specs.Entries.{sketch_returns, sketch_leaves, EntryReconciles};

// List to message.
#[unsafe(no_mangle)]
pub extern "C" fn vlomdar_sketch(plan: u32, list: &[u8], message: &mut [u8]) -> u64
    ensures { (result ≡ sketch_returns plan list.now (length message.old)) × (message.new ≡ sketch_leaves plan list.now message.old) }
{
    vlomdar::vlomdar_sketch(plan, list, message)
}

// Message with home list to two lists.
#[unsafe(no_mangle)]
pub extern "C" fn vlomdar_reconcile(
    message: &[u8],
    home: &[u8],
    theirs: &mut [u8],
    ours: &mut [u8],
) -> u64
    ensures { EntryReconciles message.now home.now theirs.old ours.old (record { number = result; theirs = theirs.new; ours = ours.new }) }
{
    vlomdar::vlomdar_reconcile(message, home, theirs, ours)
}
