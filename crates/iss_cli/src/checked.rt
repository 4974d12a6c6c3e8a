//! Inputs that were checked when they were read, so that nobody checks them again.
ghost use Rattle.std.specs.Prelude.{◌≡◌};
ghost use Rattle.iss_config.specs.Configs.{IsInRange};
ghost use Rattle.iss_schedule.specs.Events.{AreInRange};
ghost use Rattle.iss_schedule.specs.Schedules.{IsKnown};

use iss_config::Config;
use iss_schedule::Schedule;
use std::marker::Model;

/// A configuration whose values are in range.
#[derive(Drop)]
pub struct CheckedConfig {
    config: Config,
}

impl Model for CheckedConfig {
    ghost use Rattle.iss_config.specs.Configs.{IsInRange};
    ghost use Rattle.iss_config.specs.declared.configs.Config.{Config as ModelConfig};

    ghost Value = { ModelConfig };

    ghost view = { λ c. c.config };

    ghost invariant = { λ c. IsInRange c.config };
}

impl CheckedConfig {
    /// A configuration that was read.
    pub fn of(config: Config) -> CheckedConfig
        requires { IsInRange config }
        ensures { result ≡ config }
    {
        CheckedConfig { config }
    }

    /// The configuration.
    pub fn config(&self) -> &Config
        ensures same { result.now ≡ self.now }
        ensures range { IsInRange result.now }
    {
        &self.config
    }
}

/// A schedule of a known module, whose events are in the ranges of its header.
#[derive(Drop)]
pub struct CheckedSchedule {
    schedule: Schedule,
}

impl Model for CheckedSchedule {
    ghost use Rattle.iss_schedule.specs.Events.{AreInRange};
    ghost use Rattle.iss_schedule.specs.Schedules.{IsKnown};
    ghost use Rattle.iss_schedule.specs.declared.schedules.Schedule.{Schedule as ModelSchedule};

    ghost Value = { ModelSchedule };

    ghost view = { λ s. s.schedule };

    ghost invariant = { λ s. IsKnown s.schedule.setup × AreInRange s.schedule.setup s.schedule.events };
}

impl CheckedSchedule {
    /// A schedule that was read or generated.
    pub fn of(schedule: Schedule) -> CheckedSchedule
        requires known { IsKnown schedule.setup }
        requires range { AreInRange schedule.setup schedule.events }
        ensures { result ≡ schedule }
    {
        CheckedSchedule { schedule }
    }

    /// The schedule.
    pub fn schedule(&self) -> &Schedule
        ensures same { result.now ≡ self.now }
        ensures known { IsKnown result.now.setup }
        ensures range { AreInRange result.now.setup result.now.events }
    {
        &self.schedule
    }
}
