// The running sketch of the benchmark under its C names: the functions of `bench_update`, each with its contract.
#![tactic(auto)]

ghost use Rattle.std.specs.Prelude.{◌≡◌};
ghost use Rattle.bench_update.specs.Folds.{adding, removing, entry_returns, entry_leaves};

// The sketch in the message, with the keys of the list added.
#[unsafe(no_mangle)]
pub extern "C" fn vlomdar_bench_add(list: &[u8], message: &mut [u8]) -> u64
    ensures { (result ≡ entry_returns adding list.now message.old) × (message.new ≡ entry_leaves adding list.now message.old) }
{
    bench_update::vlomdar_bench_add(list, message)
}

// The sketch in the message, with the keys of the list removed.
// Stays beside the other: these are two C names.
#[unsafe(no_mangle)]
pub extern "C" fn vlomdar_bench_remove(list: &[u8], message: &mut [u8]) -> u64
    ensures { (result ≡ entry_returns removing list.now message.old) × (message.new ≡ entry_leaves removing list.now message.old) }
{
    bench_update::vlomdar_bench_remove(list, message)
}
