//! The permissions in a mode.

use bitflags::Flags;
use qx_records::Permissions;

#[test]
fn the_bits_of_a_mode_have_the_names_of_posix(rt: HostRuntime) {
    let mode = Permissions::of(0o104751);
    let set = [
        Permissions::SET_USER_ID,
        Permissions::USER_READ,
        Permissions::USER_WRITE,
        Permissions::USER_EXECUTE,
        Permissions::GROUP_READ,
        Permissions::GROUP_EXECUTE,
        Permissions::OTHER_EXECUTE,
    ];
    let clear = [
        Permissions::SET_GROUP_ID,
        Permissions::STICKY,
        Permissions::GROUP_WRITE,
        Permissions::OTHER_READ,
        Permissions::OTHER_WRITE,
    ];
    for one in set {
        assert!(rt; mode.contains(one), "{one:?}");
    }
    for one in clear {
        assert!(rt; !mode.contains(one), "{one:?}");
    }
    assert_eq!(rt; Permissions::all().bits(), 0o7777);
    assert_eq!(rt; Permissions::from_bits(0o7777), Some(Permissions(0o7777)));
    assert_eq!(rt; Permissions::from_bits(0o10000), None);
    assert_eq!(rt; Permissions::from_name("STICKY"), Some(Permissions::STICKY));
    assert_eq!(rt; Permissions(0o1700).put_in(0o104751), 0o101700);
}
