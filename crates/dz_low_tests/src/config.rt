//! Tests of `dz_config`.

use crate::parts::{joined, name};
use dz_config::{ConfigError, ConfigFault, TEXT_OCTETS, read_config};
use dz_io::Peer;
use dz_settings::{CatalogSettings, Policy};
use std::alloc::{AllocError, Global};
use std::process::Abort;
use std::test::*;

const CATALOG: &[u8] = b"[[catalog]]
name = \"catalog.example.\"
policy = \"present\"
primaries = [\"192.0.2.1\", \"192.0.2.2:5353\"]
";

const GROUP: &[u8] = b"[[catalog.group]]
word = \"edge\"
policy = \"require\"
primaries = [\"192.0.2.3\"]
";

const LISTEN: &[u8] = b"listen = \"192.0.2.10:53\"\n";

/// The peer 192.0.2.N at this port, where N is `last`.
fn peer(last: u8, port: u16) -> Peer {
    Peer {
        address: [192, 0, 2, last],
        port,
    }
}

/// The text has this fault.
fn fails(
    rt: &impl Abort,
    alloc: Global,
    pieces: &[&[u8]],
    wanted: ConfigFault,
) -> Result<(), AllocError> {
    let text = joined(alloc, pieces)?;
    match read_config(alloc, text.as_slice()) {
        Ok(_) => panic!(rt; "read"),
        Err(error) => assert_eq!(rt; error, ConfigError::Fault(wanted)),
    }
    Ok(())
}

/// The catalog of the sample text.
fn is_sample(rt: &impl Abort, catalog: &CatalogSettings) {
    assert!(rt; catalog.name.same(&name(rt, b"catalog.example")));
    assert_eq!(rt; catalog.policy, Policy::Present);
    assert_eq!(rt; catalog.primaries.as_slice().len(), 2);
    assert_eq!(rt; catalog.primaries.as_slice().first(), Some(&peer(1, 53)));
    assert_eq!(rt; catalog.primaries.as_slice().last(), Some(&peer(2, 5353)));
    assert_eq!(rt; catalog.groups.as_slice().len(), 1);
    for group in catalog.groups.as_slice() {
        assert_eq!(rt; group.word.as_slice(), b"edge".as_slice());
        assert_eq!(rt; group.policy, Policy::Require);
        assert_eq!(rt; group.primaries.as_slice().len(), 1);
        assert_eq!(rt; group.primaries.as_slice().first(), Some(&peer(3, 53)));
    }
}

/// The text reads to the sample's value.
fn reads(rt: &impl Abort, alloc: Global, pieces: &[&[u8]]) -> Result<(), AllocError> {
    let text = joined(alloc, pieces)?;
    match read_config(alloc, text.as_slice()) {
        Ok((listen, config)) => {
            assert_eq!(rt; listen, peer(10, 53));
            assert_eq!(rt; config.catalogs().len(), 1);
            for catalog in config.catalogs() {
                is_sample(rt, catalog);
            }
        }
        Err(error) => panic!(rt; "{error:?}"),
    }
    Ok(())
}

#[test]
fn a_configuration_reads_however_toml_writes_it(rt: HostRuntime) -> Result<(), Fail> {
    reads(&rt, rt.alloc(), &[LISTEN, CATALOG, GROUP])?;
    let inline: &[u8] =
        b"catalog = [{ name = 'catalog.example', policy = \"present\", primaries = ['192.0.2.1:53', '192.0.2.2:5353'], group = [{ primaries = ['192.0.2.3'], policy = 'require', word = 'edge' }] }]\n";
    reads(
        &rt,
        rt.alloc(),
        &[b"# a comment\n", inline, b"listen = '192.0.2.10'\n"],
    )?;
    Ok(())
}

#[test]
fn text_that_is_no_toml_counts_first(rt: HostRuntime) -> Result<(), Fail> {
    let alloc = rt.alloc();
    fails(&rt, alloc, &[LISTEN, LISTEN, CATALOG], ConfigFault::NotToml)?;
    fails(
        &rt,
        alloc,
        &[LISTEN, CATALOG, b"# \xff\n"],
        ConfigFault::NotToml,
    )?;
    let sample = joined(alloc, &[LISTEN, CATALOG, GROUP])?;
    let mut long = Vec::new(alloc);
    for _ in sample.len()..TEXT_OCTETS {
        long.push(b'\n')?;
    }
    reads(&rt, alloc, &[long.as_slice(), sample.as_slice()])?;
    fails(
        &rt,
        alloc,
        &[b"\n", long.as_slice(), sample.as_slice()],
        ConfigFault::NotToml,
    )?;
    Ok(())
}
