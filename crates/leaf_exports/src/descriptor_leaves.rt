// The AMF0 track descriptor.
ghost use Rattle.std.specs.Prelude.{◌≡◌};
ghost use Rattle.multitrack.specs.Descriptor.{descriptor};
ghost use Rattle.leaf_exports.specs.DescriptorLeaves.{leaf_multitrack};

use multitrack::MultitrackResult;
use types::Multitrack;

#[repr(C)]
#[derive(Clone, Copy, Debug, PartialEq, Eq)]
pub struct LeafMultitrack {
    pub error: i32,
    pub track_type: u8,
    pub track_name: [u8; 64],
}

#[unsafe(no_mangle)]
pub extern "C" fn leaf_multitrack_parse(payload: &[u8]) -> LeafMultitrack
    ensures { result ≡ leaf_multitrack (descriptor payload.now) }
{
    let MultitrackResult { error, multitrack } = multitrack::multitrack_parse(payload);
    let Multitrack {
        track_type,
        track_name,
    } = multitrack;
    LeafMultitrack {
        error: error.into(),
        track_type: track_type.into(),
        track_name,
    }
}
