ghost use Rattle.std.specs.Prelude.{◌≡◌, IfErr, None, OnOk, Some};
ghost use Rattle.chew_spec_image.specs.Reading.{image_place};

use crate::fault::ImageFault;
use crate::parts::Parts;
use crate::walk::check_nodes;

/// Whether bytes are an image, and else the first faulty place. It takes no memory, and goes over the bytes once.
pub fn check_image(bytes: &[u8]) -> Result<(), ImageFault>
    ensures ok { OnOk result (image_place bytes.now ≡ None) }
    ensures err { IfErr result (λ fault. image_place bytes.now ≡ Some fault.place) }
{
    let parts = match Parts::of(bytes) {
        Ok(parts) => parts,
        Err(fault) => return Err(fault),
    };
    let walk = check_nodes(&parts)?;
    if walk.nodes.next_row != parts.counts.rows {
        return Err(ImageFault { place: 8 });
    }
    if let Some(fault) = walk.fault {
        return Err(fault);
    }
    if walk.rows.text_start != parts.counts.text {
        return Err(ImageFault { place: 16 });
    }
    Ok(())
}
