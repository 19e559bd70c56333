// What the derived defaults are: each function here is proved.
ghost use Rattle.std.specs.Prelude.{◌≡◌};
ghost use Rattle.types.specs.Types.{
  default_audio_codec,
  default_video_header,
  default_audio_header,
  default_multitrack_type,
  default_multitrack,
  default_modex_type,
  default_modex,
};

use super::*;

fn audio_codec() -> AudioCodec
    ensures { result ≡ default_audio_codec }
{
    AudioCodec::default()
}

fn video_header() -> VideoHeader
    ensures { result ≡ default_video_header }
{
    VideoHeader::default()
}

fn audio_header() -> AudioHeader
    ensures { result ≡ default_audio_header }
{
    AudioHeader::default()
}

fn multitrack_type() -> MultitrackType
    ensures { result ≡ default_multitrack_type }
{
    MultitrackType::default()
}

fn multitrack() -> Multitrack
    ensures { result ≡ default_multitrack }
{
    Multitrack::default()
}

fn modex_type() -> ModexType
    ensures { result ≡ default_modex_type }
{
    ModexType::default()
}

fn modex() -> Modex
    ensures { result ≡ default_modex }
{
    Modex::default()
}

#[test]
fn defaults_are_empty() {
    let _all = (
        audio_codec(),
        video_header(),
        audio_header(),
        multitrack_type(),
        multitrack(),
        modex_type(),
        modex(),
    );
}
