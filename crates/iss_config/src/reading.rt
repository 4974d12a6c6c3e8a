//! Reading a configuration.
ghost use Rattle.std.specs.Prelude.{◌≡◌, Err, IfNone, IfOk, IfSome};
ghost use Rattle.toml.specs.View.{table_view};
ghost use Rattle.iss_config.specs.Configs.{IsConfig};
ghost use Rattle.iss_config.specs.Internal.{Holds, HoldsProtocol, HoldsSizes, HoldsWork, IsTableOf};
ghost use Rattle.iss_config.specs.declared.configs.Config.{Config};
ghost use Rattle.iss_config.specs.declared.parts.Protocol.{Protocol};
ghost use Rattle.iss_config.specs.declared.parts.Sizes.{Sizes};
ghost use Rattle.iss_config.specs.declared.parts.Work.{Work};

use crate::configs::Config;
use crate::errors::ConfigError;
use crate::modules::{most_faults, nodes_of};
use crate::parts::{Protocol, Sizes, Work};
use crate::tables::{has_all_keys, module_at, number_at, policy_at};
use std::alloc::Global;
use toml::Table;

impl Config {
    /// The configuration with this text. The order of the keys, blanks and comments are free, as TOML 1.1 has them.
    ///
    /// # Errors
    ///
    /// `BadConfig` if this is the text of no configuration: it is not UTF-8, no TOML (as with a key that is there
    /// twice), a key is missing or unknown, or a value has another type or is out of range. `NoMemory` if out of
    /// memory.
    // rule: Loopback: A configuration is a TOML table with exactly eleven keys
    pub fn read(alloc: Global, bytes: &[u8]) -> Result<Config, ConfigError>
        ensures ok { IfOk result (IsConfig bytes.now) }
        ensures refused { result ≡ Err ConfigError.BadConfig → (c : Config) → ¬ IsConfig bytes.now c }
    {
        match toml::table_from_slice(alloc, bytes) {
            Ok(table) => match config_in(&table) {
                Some(config) => Ok(config),
                None => Err(ConfigError::BadConfig),
            },
            Err(error) => {
                if error.is_memory() {
                    Err(ConfigError::NoMemory)
                } else {
                    Err(ConfigError::BadConfig)
                }
            }
        }
    }
}

// The configuration that a table is, if it is one.
fn config_in(table: &Table) -> Option<Config>
    ensures some { IfSome result (IsTableOf (table_view table.now)) }
    ensures none { IfNone result ((c : Config) → ¬ IsTableOf (table_view table.now) c) }
{
    if !has_all_keys(table) {
        return None;
    }
    config_at(table)
}

// The configuration that a table holds, whatever other keys it has.
fn config_at(table: &Table) -> Option<Config>
    ensures some { IfSome result (Holds (table_view table.now)) }
    ensures none { IfNone result ((c : Config) → ¬ Holds (table_view table.now) c) }
{
    let protocol = protocol_at(table)?;
    let sizes = sizes_at(table)?;
    let work = work_at(table, sizes)?;
    Some(Config {
        module: protocol.module,
        policy: protocol.policy,
        f: protocol.f,
        epoch: protocol.epoch,
        buckets: sizes.buckets,
        batch: sizes.batch,
        window: sizes.window,
        clients: sizes.clients,
        keys: sizes.keys,
        requests: work.requests,
        turns: work.turns,
    })
}

// The protocol that a table names.
// rule: Loopback: A configuration's numbers are in the ranges of a schedule's header
fn protocol_at(table: &Table) -> Option<Protocol>
    ensures some { IfSome result (HoldsProtocol (table_view table.now)) }
    ensures none { IfNone result ((p : Protocol) → ¬ HoldsProtocol (table_view table.now) p) }
{
    let module = module_at(table)?;
    let policy = policy_at(table)?;
    let f = number_at(table, "f", 0, most_faults(module))?;
    let epoch = number_at(table, "epoch", nodes_of(module, f), 64)?;
    Some(Protocol {
        module,
        policy,
        f,
        epoch: u64::from(epoch),
    })
}

// The sizes that a table holds.
// rule: Loopback: A configuration's numbers are in the ranges of a schedule's header
fn sizes_at(table: &Table) -> Option<Sizes>
    ensures some { IfSome result (HoldsSizes (table_view table.now)) }
    ensures none { IfNone result ((s : Sizes) → ¬ HoldsSizes (table_view table.now) s) }
{
    let buckets = number_at(table, "buckets", 1, 256)?;
    let batch = number_at(table, "batch", 1, 32)?;
    let window = number_at(table, "window", 1, 64)?;
    let clients = number_at(table, "clients", 1, 256)?;
    let keys = number_at(table, "keys", 2, 20)?;
    Some(Sizes {
        buckets,
        batch,
        window,
        clients,
        keys,
    })
}

// What a table says of the loop of a cluster with these sizes.
// rule: Loopback: Requests lie in the clients' windows, and have leaves that sign them
fn work_at(table: &Table, sizes: Sizes) -> Option<Work>
    requires { HoldsSizes (table_view table.now) sizes }
    ensures some { IfSome result (HoldsWork (table_view table.now) sizes) }
    ensures none { IfNone result ((w : Work) → ¬ HoldsWork (table_view table.now) sizes w) }
{
    let requests = number_at(table, "requests", 0, 16_384)?;
    let turns = number_at(table, "turns", 1, 1_000_000)?;
    if requests > sizes.clients * sizes.window {
        return None;
    }
    if requests != 0 && (requests - 1) / sizes.clients >= 1 << sizes.keys {
        return None;
    }
    Some(Work { requests, turns })
}
