//! The lines behind the replies of a run.

ghost use Rattle.std.specs.Prelude.{◌≡◌, ◌++◌, IfOk, OnOk};
ghost use Rattle.plain_text.specs.Decimals.{numeral};
ghost use Rattle.script_service.specs.Endings.{probe_words, fill_words, tally_line, share_line, share_lines, ending};

use plain_text::{NoMemory, push_decimal};
use script_reader::ClientScript;
use std::alloc::Global;
use subtree_memo::Tally;

// Appends a text and a number.
fn push_count(alloc: Global, out: &mut Vec<u8>, text: &[u8], count: u64) -> Result<(), NoMemory>
    ensures { OnOk result (out.new.items ≡ out.old.items ++ text.now ++ numeral count) }
{
    out.extend_from_slice(text)?;
    push_decimal(alloc, out, i128::from(count))
}

// Appends the numbers of probes.
fn push_probes(alloc: Global, out: &mut Vec<u8>, tally: Tally) -> Result<(), NoMemory>
    ensures { OnOk result (out.new.items ≡ out.old.items ++ probe_words tally) }
{
    push_count(alloc, out, b" probes ", tally.probes)?;
    push_count(alloc, out, b" hits ", tally.hits)?;
    push_count(alloc, out, b" misses ", tally.misses)
}

// Appends the numbers of fills.
fn push_fills(alloc: Global, out: &mut Vec<u8>, tally: Tally) -> Result<(), NoMemory>
    ensures { OnOk result (out.new.items ≡ out.old.items ++ fill_words tally) }
{
    push_count(alloc, out, b" offered ", tally.offered)?;
    push_count(alloc, out, b" kept ", tally.kept)?;
    push_count(alloc, out, b" heavy ", tally.heavy)?;
    push_count(alloc, out, b" dropped ", tally.dropped)?;
    push_count(alloc, out, b" evicted ", tally.evicted)
}

// Appends the line of the tally.
fn push_tally(alloc: Global, out: &mut Vec<u8>, tally: Tally) -> Result<(), NoMemory>
    ensures { OnOk result (out.new.items ≡ out.old.items ++ tally_line tally) }
{
    out.extend_from_slice(b"tally")?;
    push_probes(alloc, out, tally)?;
    push_fills(alloc, out, tally)?;
    out.push(b'\n')?;
    Ok(())
}

// Appends what a client's entries weigh.
fn push_share(alloc: Global, out: &mut Vec<u8>, name: &[u8], owned: u64) -> Result<(), NoMemory>
    ensures { OnOk result (out.new.items ≡ out.old.items ++ share_line name.now owned) }
{
    out.extend_from_slice(b"share ")?;
    out.extend_from_slice(name)?;
    push_count(alloc, out, b" ", owned)?;
    out.push(b'\n')?;
    Ok(())
}

// Appends the line of each client, with its own weight.
fn push_shares(
    alloc: Global,
    out: &mut Vec<u8>,
    clients: &[ClientScript],
    weights: &[u64],
) -> Result<(), NoMemory>
    ensures { OnOk result (out.new.items ≡ out.old.items ++ share_lines clients.now weights.now) }
{
    let mut left = weights;
    for client in clients {
        let Some((owned, more)) = left.split_first() else {
            return Ok(());
        };
        push_share(alloc, out, client.name.items(), *owned)?;
        left = more;
    }
    Ok(())
}

/// The lines behind the replies: with `tally` that of the memo's counts, and with a share above 0 one for each client.
pub fn ending_lines(
    alloc: Global,
    tally: bool,
    share: u64,
    clients: &[ClientScript],
    counts: Tally,
    owned: &[u64],
) -> Result<Vec<u8>, NoMemory>
    ensures { IfOk result (λ lines. lines.items ≡ ending tally share clients.now counts owned.now) }
{
    let mut lines = Vec::new(alloc);
    if tally {
        push_tally(alloc, &mut lines, counts)?;
        if 0 < share {
            push_shares(alloc, &mut lines, clients, owned)?;
        }
    }
    Ok(lines)
}
