ghost use Rattle.std.specs.Prelude.{◌≡◌, length};
ghost use Rattle.octets.specs.Octets.{zeros};

use crate::viewing::{Viewing, number_shown};
use std::test::Fail;

// A viewing that ends unlooked at.
fn let_go(buffer: &mut [u8])
    ensures { buffer.new ≡ zeros (length buffer.old) }
{
    let _viewing = Viewing::new(buffer);
}

#[test]
fn viewings_wipe(rt: HostRuntime) -> Result<(), Fail> {
    let mut buffer = [0; 1024];
    buffer[15] = 7;
    buffer[64] = 1;
    assert_eq!(rt; number_shown(&mut buffer), Some(7));
    assert!(rt; octets::is_zero(&buffer));
    buffer[64] = 1;
    let_go(&mut buffer);
    assert!(rt; octets::is_zero(&buffer));
    Ok(())
}
