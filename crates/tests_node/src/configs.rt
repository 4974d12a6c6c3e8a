//! The configurations of the tests.
ghost use Rattle.std.specs.Prelude.{◌≡◌, ◌<◌, IfOk};
ghost use Rattle.iss_config.specs.Configs.{IsInRange, setup_of};
ghost use Rattle.iss_rules.specs.Setups.{IsSetupOf};
ghost use Rattle.sb_pbft.specs.Pbft.{pbft};
ghost use Rattle.sb_relay.specs.Relay.{relay};

use iss_config::{Config, ConfigError};
use std::alloc::Global;

/// A configuration that must be of PBFT.
pub fn pbft_config(alloc: Global, text: &[u8]) -> Result<Config, ConfigError>
    ensures range { IfOk result IsInRange }
    ensures good { IfOk result (λ config. IsSetupOf pbft (setup_of config)) }
    ensures nodes { IfOk result (λ config. 0 < (setup_of config).n) }
{
    let config = Config::read(alloc, text)?;
    if config.module == 3 {
        Ok(config)
    } else {
        Err(ConfigError::BadConfig)
    }
}

/// A configuration that must be of the relay.
pub fn relay_config(alloc: Global, text: &[u8]) -> Result<Config, ConfigError>
    ensures range { IfOk result IsInRange }
    ensures good { IfOk result (λ config. IsSetupOf relay (setup_of config)) }
    ensures nodes { IfOk result (λ config. (setup_of config).n ≡ 3) }
{
    let config = Config::read(alloc, text)?;
    if config.module == 1 {
        Ok(config)
    } else {
        Err(ConfigError::BadConfig)
    }
}
