//! What the words of a command ask of a run.

ghost use Rattle.std.specs.Prelude.{◌≡◌, IfOk};
ghost use Rattle.hb_words.specs.AskedRun.{run_seen};
ghost use Rattle.hb_cli.specs.Asked.{config_of, words_of};

use hb_base::{NoMemory, Text};
use hb_held::OwnDoors;
use hb_model::{Limits, NodeConfig};
use hb_serve::ServeWords;
use hb_words::RunWords;
use std::alloc::Global;

/// The most inbound links and links to gateways that may be open at a time.
const MOST_LINKS: u64 = 1024;

/// The node that is asked for.
fn config_of(alloc: Global, words: &RunWords<'_>) -> Result<NodeConfig, NoMemory>
    ensures { IfOk result (λ config. config ≡ config_of (run_seen words.now)) }
{
    Ok(NodeConfig {
        id: Text::of_str(alloc, words.id)?,
        discovery: words.discovery,
        network: Text::of_str(alloc, words.network)?,
        node: Text::of_str(alloc, words.node)?,
        doors: OwnDoors {
            inbound: words.inbound,
            outbound: words.outbound,
            plain: words.plain,
        },
        hbone_port: words.hbone_port,
        limits: Limits {
            links: MOST_LINKS,
            tunnels: words.tunnels as u64,
        },
    })
}

/// What a run is asked for that so many ticks end, if a number of them does.
///
/// Errors: `NoMemory`.
pub fn serve_words(
    alloc: Global,
    words: &RunWords<'_>,
    ticks: Option<u64>,
) -> Result<ServeWords, NoMemory>
    ensures { IfOk result (λ asked. asked ≡ words_of (run_seen words.now) ticks) }
{
    Ok(ServeWords {
        config: config_of(alloc, words)?,
        turns: words.turns,
        ticks,
    })
}
