use cc_base::Rate;
use dtvcc_services::Services;
use std::alloc::AllocError;

// DefineWindow of window 0, one row of four columns, visible, and a character.
const SHOWN: &[u8] = b"\x98\x20\0\0\x00\x03\x09A";

// The same of window 1, hidden.
const HIDDEN: &[u8] = b"\x99\x00\0\0\x00\x03\x09A";

// The next frame begins.
fn tick(services: &mut Services) {
    if services.frames() < 1000 {
        services.tick(Rate::F2997);
    }
}

// A service takes bytes.
fn send(services: &mut Services, service: u8, bytes: &[u8]) {
    for byte in bytes {
        if services.frames() < 1000 {
            services.byte(service, *byte);
        }
    }
}

#[test]
fn services_are_touched_used_and_filled(rt: HostRuntime) -> Result<(), AllocError> {
    let mut services = Services::new(rt.alloc())?;
    tick(&mut services);
    send(&mut services, 0, SHOWN);
    send(&mut services, 64, SHOWN);
    assert!(rt; !services.is_touched());
    send(&mut services, 1, SHOWN);
    send(&mut services, 63, HIDDEN);
    assert!(rt; services.is_touched());
    assert!(rt; services.is_used(1) && services.is_used(63) && !services.is_used(2));
    tick(&mut services);
    send(&mut services, 63, b"BC");
    assert!(rt; !services.is_touched());
    send(&mut services, 1, b"B");
    assert!(rt; services.is_touched());
    services.reset();
    assert!(rt; !services.is_used(1) && services.frames() == 2);
    send(&mut services, 9, b"\x8d\x0a");
    send(&mut services, 9, &[0x41; 128]);
    assert!(rt; services.filled() == Some(9));
    tick(&mut services);
    assert!(rt; services.filled().is_none());
    Ok(())
}
