// Record verdicts: where the record of a single frame stands and which rule judges it, and how many records are valid.
ghost use Rattle.std.specs.Prelude.{◌≡◌};
ghost use Rattle.types.specs.Types.{frame_number};
ghost use Rattle.codec_config.specs.Records.{start_codec};
ghost use Rattle.multitrack_media.specs.Sealed.{per_track};
ghost use Rattle.multitrack_media.specs.Positions.{places_at};
ghost use Rattle.init_cache.specs.Verdicts.{record_at, sequence_start, valid_from, track_verdict, count_valid};

use crate::head::{AAC_SEQUENCE_HEADER, AVC_SEQUENCE_HEADER, FrameHead};
use codec_config::ConfigCodec;
use multitrack_media::AvMultitrackType;
use types::{FrameType, PacketType, VideoFrameType};

// The codec and the place of the record in a frame that starts a sequence.
#[derive(Clone, Copy, Debug, PartialEq, Eq)]
pub struct SequenceStart {
    pub codec: ConfigCodec,
    pub from: usize,
}

impl FrameHead {
    fn enhanced_start(self, frame_type: FrameType) -> SequenceStart
        ensures { Some result ≡ record_at (start_codec (frame_number frame_type) self.header.fourcc) 5 }
    {
        SequenceStart {
            codec: codec_config::sequence_start_codec(frame_type, self.header.fourcc),
            from: 5,
        }
    }

    // Legacy AVC: AVCPacketType and CompositionTime stand before the record.
    #[tactic(auto, unfolding(crate::specs::Verdicts::sequence_start, crate::specs::Head::is_aac_of))]
    pub(crate) fn video_start(self) -> Option<SequenceStart>
        ensures { result ≡ sequence_start 1 self }
    {
        if self.is_video_of(VideoFrameType::COMMAND) {
            None
        } else if self.is_enhanced_of(PacketType::SEQUENCE_START) {
            Some(self.enhanced_start(FrameType::VIDEO))
        } else if self.is_avc_of(AVC_SEQUENCE_HEADER) {
            Some(SequenceStart {
                codec: ConfigCodec::Avc,
                from: 5,
            })
        } else {
            None
        }
    }

    // Legacy AAC: AACPacketType stands before the record.
    #[tactic(auto, unfolding(crate::specs::Verdicts::sequence_start, crate::specs::Head::is_video_of, crate::specs::Head::is_avc_of))]
    pub(crate) fn audio_start(self) -> Option<SequenceStart>
        ensures { result ≡ sequence_start 0 self }
    {
        if self.is_enhanced_of(PacketType::SEQUENCE_START) {
            Some(self.enhanced_start(FrameType::AUDIO))
        } else if self.is_aac_of(AAC_SEQUENCE_HEADER) {
            Some(SequenceStart {
                codec: ConfigCodec::Aac,
                from: 2,
            })
        } else {
            None
        }
    }
}

// Whether the record that begins at `from` is valid. Behind the end of the payload it is empty.
#[tactic(auto, unfolding(crate::specs::Verdicts::valid_from))]
pub(crate) fn record_valid_from(codec: ConfigCodec, payload: &[u8], from: usize) -> bool
    ensures { result ≡ valid_from codec from payload.now }
{
    codec_config::validate_config_record(codec, payload.get(from..).unwrap_or(&[]))
}

// How many of `tracks` tracks, the first of which has its head at `from`, carry a valid record.
#[tactic(auto, using(multitrack_media::proofs::Heads::track_inside))]
pub(crate) fn count_valid_tracks(
    frame_type: FrameType,
    payload: &[u8],
    form: AvMultitrackType,
    from: usize,
    tracks: usize,
) -> usize
    ensures { result ≡ count_valid (per_track (track_verdict (frame_number frame_type)) payload.now (places_at tracks form payload.now from)) }
{
    let mut at = from;
    let mut valid = 0;
    for _ in 0..tracks {
        let track = multitrack_media::track_at(payload, form, at);
        let end = track.start + track.length;
        let record = &payload[track.start..end];
        valid += usize::from(codec_config::sequence_start_config_valid(
            frame_type,
            track.fourcc,
            record,
        ));
        at = end;
    }
    valid
}
