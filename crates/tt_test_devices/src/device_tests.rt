//! `Device` over calls that are interrupted, fail or move nothing.

use crate::devices::Failing;
use std::io::ErrorKind;
use tt_core::{Device, IoFailed, Sink, Source};

#[test]
fn a_read_at_the_end_moves_nothing_and_is_no_failure(rt: HostRuntime) {
    let bytes = [7u8];
    let mut device = Device::new(&bytes[..]);
    let mut buf = [0u8; 4];
    assert_eq!(rt; device.read(&mut buf), Ok(1));
    for _ in 0..2 {
        assert_eq!(rt; device.read(&mut buf), Ok(0));
        assert!(rt; !device.failed());
    }
}

#[test]
fn an_interrupted_read_is_made_again(rt: HostRuntime) {
    for times in [1, 999] {
        let mut device = Device::new(Failing {
            times,
            kind: ErrorKind::Interrupted,
        });
        let mut buf = [0u8; 4];
        assert_eq!(rt; device.read(&mut buf), Ok(1));
        assert_eq!(rt; buf[0], 7);
        assert!(rt; !Source::failed(&device));
    }
}

#[test]
fn a_read_that_is_interrupted_on_and_on_fails(rt: HostRuntime) {
    for times in [1000, u32::MAX] {
        let mut device = Device::new(Failing {
            times,
            kind: ErrorKind::Interrupted,
        });
        let mut buf = [0u8; 4];
        assert_eq!(rt; device.read(&mut buf), Err(IoFailed));
        assert!(rt; Source::failed(&device));
    }
}

#[test]
fn a_read_that_fails_is_not_made_again(rt: HostRuntime) {
    // the second call would succeed
    let mut device = Device::new(Failing {
        times: 1,
        kind: ErrorKind::BrokenPipe,
    });
    let mut buf = [0u8; 4];
    assert_eq!(rt; device.read(&mut buf), Err(IoFailed));
    assert!(rt; Source::failed(&device));
}

#[test]
fn a_write_that_takes_nothing_fails(rt: HostRuntime) {
    let mut room = [0u8; 1];
    let mut device = Device::new(&mut room[..]);
    assert_eq!(rt; device.write(&[]), Ok(0));
    assert_eq!(rt; device.write(&[7, 8]), Ok(1));
    assert!(rt; !device.failed());
    assert_eq!(rt; device.write(&[8]), Err(IoFailed));
    assert!(rt; device.failed());
}

#[test]
fn an_interrupted_write_is_made_again(rt: HostRuntime) {
    for times in [1, 999] {
        let mut device = Device::new(Failing {
            times,
            kind: ErrorKind::Interrupted,
        });
        assert_eq!(rt; device.write(&[7, 8]), Ok(1));
        assert!(rt; !Sink::failed(&device));
    }
}

#[test]
fn a_write_that_is_interrupted_on_and_on_fails(rt: HostRuntime) {
    for times in [1000, u32::MAX] {
        let mut device = Device::new(Failing {
            times,
            kind: ErrorKind::Interrupted,
        });
        assert_eq!(rt; device.write(&[7, 8]), Err(IoFailed));
        assert!(rt; Sink::failed(&device));
    }
}

#[test]
fn a_write_that_fails_is_not_made_again(rt: HostRuntime) {
    let mut device = Device::new(Failing {
        times: 1,
        kind: ErrorKind::BrokenPipe,
    });
    assert_eq!(rt; device.write(&[7, 8]), Err(IoFailed));
    assert!(rt; Sink::failed(&device));
}
