//! Which change of the Longfile adds and drops names.
ghost use Rattle.std.specs.Prelude.{◌≡◌, IsTrue};
ghost use Rattle.qx_geom.specs.Layout.{is_block_size};
ghost use Rattle.qx_long.specs.NamePlans.{name_change};

use qx_geom::Root;
use qx_ptree::Change;

/// The change of the Longfile that adds the name of one number and drops that of another. Where both are the same, the leaf is written and none goes.
pub fn plan(long: &Root, add: Option<u32>, drop: Option<u32>, blocksize: u32) -> Change
    requires { IsTrue (is_block_size blocksize) }
    ensures { result ≡ name_change long.now add drop blocksize }
{
    let gone = match drop {
        Some(number) if add != drop => Some(u64::from(number)),
        _ => None,
    };
    match add {
        Some(number) => {
            let first = u64::from(number);
            Change {
                size: long.size.max((first + 1) * u64::from(blocksize)),
                first,
                count: 1,
                also: None,
                gone,
            }
        }
        None => Change {
            size: long.size,
            first: 0,
            count: 0,
            also: None,
            gone,
        },
    }
}
