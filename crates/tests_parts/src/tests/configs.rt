//! Texts of configurations. The expected tag was computed by an independent program.
use iss_config::Config;
use iss_request::{Kind, Policy};
use std::alloc::Global;
use std::test::Fail;

const TEXT: &[u8] =
    b"# four nodes\nmodule = \"pbft\"\nf = 1\nepoch = 4\nbuckets = 4\nbatch = 4\nwindow = 8\n\
      policy = 'simple' # all lead\nclients = 8\nkeys = 0x6\nrequests = 8\nturns = 4_00\n";

const TAG: &[u8] = b"\xed\x64\x27\xc3\x48\x45\x51\xd1\xbd\x39\xc1\x43\xac\x0c\x1a\x25\
      \x75\x04\x48\x52\x81\x0f\xf0\xc8\xd7\xc7\xbc\xee\x1f\x2d\x1a\x58";

// Whether the text is read as it says.
fn is_expected(config: &Config) -> bool {
    config.module == 3
        && config.policy == Policy::Simple
        && config.f == 1
        && (config.epoch, config.buckets, config.batch, config.window) == (4, 4, 4, 8)
        && (config.clients, config.keys, config.requests, config.turns) == (8, 6, 8, 400)
}

// Whether the set-up of a text is that of four nodes, with this tag.
fn has_setup(alloc: Global, text: &[u8], tag: &[u8]) -> Result<bool, Fail> {
    let config = Config::read(alloc, text)?;
    let setup = config.setup(alloc)?;
    Ok(
        is_expected(&config)
            && (setup.n, setup.quorum) == (4, 3)
            && setup.kind == Kind::Byzantine
            && setup.faulty.as_slice().is_empty()
            && setup.tag.as_slice() == tag,
    )
}

#[test]
fn a_text_is_read(rt: HostRuntime) -> Result<(), Fail> {
    assert!(rt; has_setup(rt.alloc(), TEXT, TAG)?);
    Ok(())
}
