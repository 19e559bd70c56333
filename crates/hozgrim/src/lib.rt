// The exported entries that a relay links. Enums leave as their numbers.
#![tactic(auto)]

ghost use Rattle.std.specs.Prelude.{◌≡◌, length};
ghost use Rattle.types.specs.Types.{error_number};
ghost use Rattle.flv.specs.Calls.{flv_start, flv_next, start_answer, start_output, frame_answer, frame_output, given_frame};
ghost use Rattle.frame.specs.Time.{split_time};
ghost use Rattle.frame.specs.Pass.{pass_report, pass_output, track_answer};
ghost use Rattle.frame.specs.InPlace.{pass_placed, pass_payload};
ghost use Rattle.frame_store.specs.Store.{offered, store_after, store_answer};
ghost use Rattle.frame_store.specs.Late.{late_info};
ghost use Rattle.g711.specs.Level.{level_answer};
ghost use Rattle.hozgrim.specs.Entries.{
  hozgrim_report,
  hozgrim_placed,
  lengths_of,
  hozgrim_store,
  hozgrim_stored,
  hozgrim_late,
  hozgrim_class,
  hozgrim_track,
  hozgrim_columns,
  hozgrim_offer,
  hozgrim_written,
  hozgrim_flv_start,
  hozgrim_flv_frame,
  no_flv_frame,
  hozgrim_level,
  hozgrim_split_time,
};
ghost use Rattle.track_columns.specs.Columns.{lent_columns, shortest, columns_result, columns_after, column_answer};
ghost use Rattle.uplink.specs.Uplink.{tick_error, tick_credits, offer_answer, offer_credits, offer_waiting};
ghost use Rattle.writers.specs.ContainerWriter.{container_call, container_answer, container_output};
ghost use Rattle.writers.specs.ModexWriter.{modex_call, modex_answer, modex_output};

use flv::reading::{FlvFrame, flv_next, flv_start};
use flv::writing::{flv_write_frame, flv_write_start};
use frame::{Report, TrackAnswer};
use frame_store::late::late_info;
use frame_store::{Kept, StoreLengths, keep};
use init_cache::kind::CacheFrameKind;
use track_columns::{column_request, walk_columns};
use types::{ErrorCode, FrameType};
use uplink::{Decision, offer, tick};
use writers::columns::TrackColumns;
use writers::container::{ContainerCall, write_container};
use writers::layers::{ModexCall, write_modex};

#[repr(C)]
#[derive(Clone, Copy, Debug, PartialEq, Eq)]
pub struct HozgrimReport {
    pub error: i32,
    pub header_error: i32,
    pub kind: u32,
    pub hint: u32,
    pub result_length: usize,
    pub tracks: usize,
    pub records: usize,
    pub valid_records: usize,
    pub header_size: usize,
    pub composition_time_ns: i64,
    pub is_ex_header: u8,
    pub packet_type: u8,
    pub frame_type: u8,
    pub audio_codec: u8,
    pub sample_rate: u8,
    pub sample_size: u8,
    pub channels: u8,
    pub aac_packet_type: u8,
    pub fourcc: [u8; 4],
}

#[repr(C)]
#[derive(Clone, Copy, Debug, PartialEq, Eq)]
pub struct HozgrimPlaced {
    pub report: HozgrimReport,
    pub start: usize,
}

#[repr(C)]
#[derive(Clone, Copy, Debug, PartialEq, Eq)]
pub struct HozgrimLengths {
    pub video: usize,
    pub audio: usize,
    pub keyframe: usize,
}

#[repr(C)]
#[derive(Clone, Copy, Debug, PartialEq, Eq)]
pub struct HozgrimStored {
    pub error: i32,
    pub report: HozgrimReport,
}

#[repr(C)]
#[derive(Clone, Copy, Debug, PartialEq, Eq)]
pub struct HozgrimLate {
    pub count: usize,
    pub length: usize,
    pub kind: u32,
}

#[repr(C)]
#[derive(Clone, Copy, Debug, PartialEq, Eq)]
pub struct HozgrimClass {
    pub error: i32,
    pub kind: u32,
    pub hint: u32,
}

#[repr(C)]
#[derive(Clone, Copy, Debug, PartialEq, Eq)]
pub struct HozgrimTrack {
    pub error: i32,
    pub fourcc: u32,
    pub count: usize,
    pub start: usize,
    pub length: usize,
    pub track_id: u8,
    pub packet_type: u8,
    pub video_frame_type: u8,
    pub verdict: u8,
}

#[repr(C)]
#[derive(Clone, Copy, Debug, PartialEq, Eq)]
pub struct HozgrimColumns {
    pub error: i32,
    pub count: usize,
}

#[repr(C)]
#[derive(Clone, Copy, Debug, PartialEq, Eq)]
pub struct HozgrimOffer {
    pub error: i32,
    pub decision: u32,
}

#[repr(C)]
#[derive(Clone, Copy, Debug, PartialEq, Eq)]
pub struct HozgrimWritten {
    pub error: i32,
    pub length: usize,
}

#[repr(C)]
#[derive(Clone, Copy, Debug, PartialEq, Eq)]
pub struct HozgrimFlvStart {
    pub error: i32,
    pub next: usize,
}

#[repr(C)]
#[derive(Clone, Copy, Debug, PartialEq, Eq)]
pub struct HozgrimFlvFrame {
    pub error: i32,
    pub found: u32,
    pub frame_type: u32,
    pub timestamp: u32,
    pub start: usize,
    pub length: usize,
    pub next: usize,
}

#[repr(C)]
#[derive(Clone, Copy, Debug, PartialEq, Eq)]
pub struct HozgrimLevel {
    pub error: i32,
    pub level: u32,
}

#[repr(C)]
#[derive(Clone, Copy, Debug, PartialEq, Eq)]
pub struct HozgrimSplitTime {
    pub milliseconds: i64,
    pub offset: u32,
}

impl From<Report> for HozgrimReport {
    ghost from_gives = { λ report numbers. numbers ≡ hozgrim_report report };

    fn from(report: Report) -> HozgrimReport {
        let header = report.header;
        let fourcc = header.fourcc;
        HozgrimReport {
            error: report.error.into(),
            header_error: header.error.into(),
            kind: u32::from(u8::from(report.kind)),
            hint: u32::from(report.hint.to_u8()),
            result_length: report.result_length,
            tracks: report.tracks,
            records: report.records,
            valid_records: report.valid_records,
            header_size: header.header_size,
            composition_time_ns: report.composition_time_ns,
            is_ex_header: header.is_ex_header,
            packet_type: header.packet_type,
            frame_type: header.frame_type,
            audio_codec: header.audio_codec.into(),
            sample_rate: header.sample_rate,
            sample_size: header.sample_size,
            channels: header.channels,
            aac_packet_type: header.aac_packet_type,
            fourcc,
        }
    }
}

// The whole pass: the result, peeled or not, goes into the output, whose further bytes stay; then it is reported.
#[unsafe(no_mangle)]
pub extern "C" fn hozgrim_pass(
    frame_type: u32,
    payload: &[u8],
    caps_ex_mask: u32,
    route_has_video: u32,
    output: &mut [u8],
) -> HozgrimReport
    ensures report { result ≡ hozgrim_report (pass_report frame_type caps_ex_mask route_has_video payload.now (length output.old)) }
    ensures output { output.new ≡ pass_output frame_type caps_ex_mask payload.now output.old }
{
    frame::frame_pass(frame_type, payload, caps_ex_mask, route_has_video, output).into()
}

// The whole pass without a copy: the result is the part of the payload from the start on, which has the reported length. Only the last option byte of a
// chain that is peeled off changes.
#[unsafe(no_mangle)]
pub extern "C" fn hozgrim_pass_in_place(
    frame_type: u32,
    payload: &mut [u8],
    caps_ex_mask: u32,
    route_has_video: u32,
) -> HozgrimPlaced
    ensures placed { result ≡ hozgrim_placed (pass_placed frame_type caps_ex_mask route_has_video payload.old) }
    ensures payload { payload.new ≡ pass_payload frame_type caps_ex_mask payload.old }
{
    let placed = frame::frame_pass_in_place(frame_type, payload, caps_ex_mask, route_has_video);
    HozgrimPlaced {
        report: placed.report.into(),
        start: placed.start,
    }
}

impl From<HozgrimLengths> for StoreLengths {
    ghost from_gives = { λ lent lengths. lengths ≡ lengths_of lent };

    fn from(lengths: HozgrimLengths) -> StoreLengths {
        let HozgrimLengths {
            video,
            audio,
            keyframe,
        } = lengths;
        StoreLengths {
            video,
            audio,
            keyframe,
        }
    }
}

impl From<StoreLengths> for HozgrimLengths {
    ghost from_gives = { λ lengths lent. lengths_of lent ≡ lengths };

    fn from(lengths: StoreLengths) -> HozgrimLengths {
        let StoreLengths {
            video,
            audio,
            keyframe,
        } = lengths;
        HozgrimLengths {
            video,
            audio,
            keyframe,
        }
    }
}

// Kept (4): the same report, field by field. Copied whole it would be read in wide words, which wait until every narrow field of them is written.
fn field_by_field(report: HozgrimReport) -> HozgrimReport
    ensures { result ≡ report }
{
    let fourcc = report.fourcc;
    HozgrimReport {
        error: report.error,
        header_error: report.header_error,
        kind: report.kind,
        hint: report.hint,
        result_length: report.result_length,
        tracks: report.tracks,
        records: report.records,
        valid_records: report.valid_records,
        header_size: report.header_size,
        composition_time_ns: report.composition_time_ns,
        is_ex_header: report.is_ex_header,
        packet_type: report.packet_type,
        frame_type: report.frame_type,
        audio_codec: report.audio_codec,
        sample_rate: report.sample_rate,
        sample_size: report.sample_size,
        channels: report.channels,
        aac_packet_type: report.aac_packet_type,
        fourcc,
    }
}

// What the store's call gives back where the record of lengths is passed by value. Its pass is the entry `hozgrim_pass`, and not that of
// `frame_store::store_frame`: with a second caller of `frame_pass` the compiler would no longer put it into `hozgrim_pass`, whose calls would take 10 ns more.
#[derive(Clone, Copy, Debug, PartialEq, Eq)]
pub struct StoredLengths {
    pub error: i32,
    pub report: HozgrimReport,
    pub lengths: HozgrimLengths,
}

fn store_by_value(
    lengths: HozgrimLengths,
    frame_type: u32,
    payload: &[u8],
    caps_ex_mask: u32,
    route_has_video: u32,
    output: &mut [u8],
    video: &mut [u8],
    audio: &mut [u8],
    keyframe: &mut [u8],
) -> StoredLengths
    ensures { (record { error = result.error; report = result.report } ≡ hozgrim_stored (store_answer
        (offered frame_type caps_ex_mask route_has_video payload.now (length output.old))
        (hozgrim_store lengths video.old audio.old keyframe.old)))
        × (output.new ≡ pass_output frame_type caps_ex_mask payload.now output.old)
        × (hozgrim_store result.lengths video.new audio.new keyframe.new ≡ store_after
        (offered frame_type caps_ex_mask route_has_video payload.now (length output.old))
        (hozgrim_store lengths video.old audio.old keyframe.old)) }
{
    let passed = hozgrim_pass(frame_type, payload, caps_ex_mask, route_has_video, output);
    let report = field_by_field(passed);
    let Kept {
        too_long,
        lengths: after,
    } = keep(
        CacheFrameKind::from(report.kind),
        &output[..report.result_length],
        lengths.into(),
        video,
        audio,
        keyframe,
    );
    StoredLengths {
        error: if too_long {
            ErrorCode::SlotTooShort.into()
        } else {
            report.error
        },
        report,
        lengths: HozgrimLengths::from(after),
    }
}

// The whole pass, and then the store of one route: a result of kind 1 to 3 goes into the slot of its kind. The record of lengths is lent and updated.
#[unsafe(no_mangle)]
pub extern "C" fn hozgrim_store_frame(
    lengths: &mut HozgrimLengths,
    frame_type: u32,
    payload: &[u8],
    caps_ex_mask: u32,
    route_has_video: u32,
    output: &mut [u8],
    video: &mut [u8],
    audio: &mut [u8],
    keyframe: &mut [u8],
) -> HozgrimStored
    ensures { (result ≡ hozgrim_stored (store_answer
        (offered frame_type caps_ex_mask route_has_video payload.now (length output.old))
        (hozgrim_store lengths.old video.old audio.old keyframe.old)))
        × (output.new ≡ pass_output frame_type caps_ex_mask payload.now output.old)
        × (hozgrim_store lengths.new video.new audio.new keyframe.new ≡ store_after
        (offered frame_type caps_ex_mask route_has_video payload.now (length output.old))
        (hozgrim_store lengths.old video.old audio.old keyframe.old)) }
{
    let kept = store_by_value(
        *lengths,
        frame_type,
        payload,
        caps_ex_mask,
        route_has_video,
        output,
        video,
        audio,
        keyframe,
    );
    *lengths = kept.lengths;
    HozgrimStored {
        error: kept.error,
        report: kept.report,
    }
}

// A frame that is held, by its number, as a viewer that joins late is sent it: the front of the buffer of its kind.
#[unsafe(no_mangle)]
pub extern "C" fn hozgrim_late(
    lengths: HozgrimLengths,
    video: &[u8],
    audio: &[u8],
    keyframe: &[u8],
    number: usize,
) -> HozgrimLate
    ensures { result ≡ hozgrim_late (late_info (hozgrim_store lengths video.now audio.now keyframe.now) number) }
{
    let info = late_info(lengths.into(), video, audio, keyframe, number);
    HozgrimLate {
        count: info.count,
        length: info.length,
        kind: u32::from(u8::from(info.kind)),
    }
}

// Kind and hint of a payload as it is: nothing is peeled.
#[tactic(auto, using(crate::proofs::Laws::class_known, crate::proofs::Laws::class_unknown, types::proofs::Laws::known_type, types::proofs::Laws::is_known, types::proofs::Laws::unknown_type_lem, types::proofs::Laws::error_kept))]
#[unsafe(no_mangle)]
pub extern "C" fn hozgrim_classify(
    frame_type: u32,
    payload: &[u8],
    route_has_video: u32,
) -> HozgrimClass
    ensures { result ≡ hozgrim_class frame_type route_has_video payload.now }
{
    match FrameType::from_number(frame_type) {
        Ok(media) => {
            let class = frame::classify(media, payload, route_has_video);
            HozgrimClass {
                error: 0,
                kind: u32::from(u8::from(class.kind)),
                hint: u32::from(class.hint.to_u8()),
            }
        }
        Err(error) => HozgrimClass {
            error: error.into(),
            kind: 0,
            hint: 0,
        },
    }
}

impl From<TrackAnswer> for HozgrimTrack {
    ghost from_gives = { λ answer numbers. numbers ≡ hozgrim_track answer };

    fn from(answer: TrackAnswer) -> HozgrimTrack {
        let TrackAnswer { track, verdict } = answer;
        HozgrimTrack {
            error: track.error.into(),
            fourcc: wire::be32_at(&track.fourcc, 0) as u32,
            count: track.count,
            start: track.start,
            length: track.length,
            track_id: track.track_id,
            packet_type: track.packet_type,
            video_frame_type: track.video_frame_type,
            verdict: verdict.into(),
        }
    }
}

// A track by its number, with the verdict of its record. The track's payload is the part of the payload that has this start and length.
#[unsafe(no_mangle)]
pub extern "C" fn hozgrim_track(frame_type: u32, payload: &[u8], number: usize) -> HozgrimTrack
    ensures { result ≡ hozgrim_track (track_answer frame_type payload.now number) }
{
    frame::track_request(frame_type, payload, number).into()
}

// Kept (2): records of the C interface, which differ in a name.
impl From<Result<usize, ErrorCode>> for HozgrimColumns {
    ghost from_gives = { λ walked numbers. numbers ≡ hozgrim_columns walked };

    fn from(walked: Result<usize, ErrorCode>) -> HozgrimColumns {
        match walked {
            Ok(count) => HozgrimColumns { error: 0, count },
            Err(error) => HozgrimColumns {
                error: error.into(),
                count: 0,
            },
        }
    }
}

// Puts all tracks of a container into columns, whose entries past the count are kept. Track i has the id ids[i], the FourCC fourccs[i] as a big-endian
// number, and the body that starts at starts[i] of the payload and is lengths[i] long.
#[unsafe(no_mangle)]
pub extern "C" fn hozgrim_walk_columns(
    frame_type: u32,
    payload: &[u8],
    ids: &mut [u8],
    fourccs: &mut [u32],
    starts: &mut [usize],
    lengths: &mut [usize],
) -> HozgrimColumns
    ensures answer { result ≡ hozgrim_columns (columns_result frame_type payload.now
        (shortest (lent_columns ids.old fourccs.old starts.old lengths.old))) }
    ensures columns { lent_columns ids.new fourccs.new starts.new lengths.new
        ≡ columns_after frame_type payload.now (lent_columns ids.old fourccs.old starts.old lengths.old) }
{
    walk_columns(frame_type, payload, ids, fourccs, starts, lengths).into()
}

// A track by its number, read from columns: no head is gone over.
#[unsafe(no_mangle)]
pub extern "C" fn hozgrim_column_track(
    frame_type: u32,
    count: usize,
    ids: &[u8],
    fourccs: &[u32],
    starts: &[usize],
    lengths: &[usize],
    payload: &[u8],
    number: usize,
) -> HozgrimTrack
    ensures { result ≡ hozgrim_track (column_answer frame_type (lent_columns ids.now fourccs.now starts.now lengths.now) count
        payload.now number) }
{
    let columns = TrackColumns {
        ids,
        fourccs,
        starts,
        lengths,
    };
    column_request(frame_type, count, &columns, payload, number).into()
}

// Credits every viewer of a shared uplink its share.
#[tactic(auto, using(crate::proofs::Laws::no_error))]
#[unsafe(no_mangle)]
pub extern "C" fn hozgrim_uplink_tick(viewers: usize, uplink: u32, credits: &mut [i32]) -> i32
    ensures error { result ≡ error_number (tick_error viewers uplink credits.old) }
    ensures credits { credits.new ≡ tick_credits viewers uplink credits.old }
{
    match tick(viewers, uplink, credits) {
        Ok(()) => 0,
        Err(error) => error.into(),
    }
}

impl From<Result<Decision, ErrorCode>> for HozgrimOffer {
    ghost from_gives = { λ offered numbers. numbers ≡ hozgrim_offer offered };

    #[tactic(auto, unfolding(types::specs::Types::error_number))]
    fn from(offered: Result<Decision, ErrorCode>) -> HozgrimOffer {
        match offered {
            Ok(decision) => HozgrimOffer {
                error: 0,
                decision: decision.into(),
            },
            Err(error) => HozgrimOffer {
                error: error.into(),
                decision: 0,
            },
        }
    }
}

// Offers a frame of so many bytes to a viewer of a shared uplink: it is sent or dropped by that viewer's credit.
#[unsafe(no_mangle)]
pub extern "C" fn hozgrim_uplink_offer(
    viewers: usize,
    viewer: usize,
    hint: u32,
    length: usize,
    credits: &mut [i32],
    waiting: &mut [u8],
) -> HozgrimOffer
    ensures answer { result ≡ hozgrim_offer (offer_answer viewers viewer hint length credits.old waiting.old) }
    ensures credits { credits.new ≡ offer_credits viewers viewer hint length credits.old waiting.old }
    ensures waiting { waiting.new ≡ offer_waiting viewers viewer hint length credits.old waiting.old }
{
    offer(viewers, viewer, hint, length, credits, waiting).into()
}

// Kept (2): as HozgrimColumns.
impl From<Result<usize, ErrorCode>> for HozgrimWritten {
    ghost from_gives = { λ written numbers. numbers ≡ hozgrim_written written };

    fn from(written: Result<usize, ErrorCode>) -> HozgrimWritten {
        match written {
            Ok(length) => HozgrimWritten { error: 0, length },
            Err(error) => HozgrimWritten {
                error: error.into(),
                length: 0,
            },
        }
    }
}

// Writes a container. Track i has the id ids[i], the FourCC fourccs[i] as a big-endian number, and the body that starts at starts[i] of the bodies and is
// lengths[i] long. Entries past the count are not looked at, nor is the video frame type in audio.
#[unsafe(no_mangle)]
pub extern "C" fn hozgrim_write_container(
    frame_type: u32,
    video_frame_type: u32,
    form: u32,
    packet_type: u32,
    count: usize,
    ids: &[u8],
    fourccs: &[u32],
    starts: &[usize],
    lengths: &[usize],
    bodies: &[u8],
    output: &mut [u8],
) -> HozgrimWritten
    ensures answer { result ≡ hozgrim_written (container_answer
        (container_call frame_type video_frame_type form packet_type count ids.now fourccs.now starts.now lengths.now bodies.now)
        (length output.old)) }
    ensures output { output.new ≡ container_output
        (container_call frame_type video_frame_type form packet_type count ids.now fourccs.now starts.now lengths.now bodies.now)
        output.old }
{
    let call = ContainerCall {
        frame_type,
        video_frame_type,
        form,
        packet_type,
        count,
        columns: TrackColumns {
            ids,
            fourccs,
            starts,
            lengths,
        },
        bodies,
    };
    write_container(&call, output).into()
}

// Writes a payload with ModEx layers around it, the outermost first. Layer i has the type types[i] and the data that start at starts[i] of the lent data and
// are lengths[i] long. Entries past the count are not looked at.
#[unsafe(no_mangle)]
pub extern "C" fn hozgrim_write_modex(
    frame_type: u32,
    count: usize,
    types: &[u8],
    starts: &[usize],
    lengths: &[usize],
    data: &[u8],
    payload: &[u8],
    output: &mut [u8],
) -> HozgrimWritten
    ensures answer { result ≡ hozgrim_written (modex_answer (modex_call frame_type count types.now starts.now lengths.now «data».now
        payload.now) (length output.old)) }
    ensures output { output.new ≡ modex_output
        (modex_call frame_type count types.now starts.now lengths.now «data».now payload.now) output.old }
{
    let call = ModexCall {
        frame_type,
        count,
        types,
        starts,
        lengths,
        lent: data,
        payload,
    };
    write_modex(&call, output).into()
}

// The start of an FLV file: the place of the first tag.
#[unsafe(no_mangle)]
pub extern "C" fn hozgrim_flv_start(file: &[u8]) -> HozgrimFlvStart
    ensures { result ≡ hozgrim_flv_start (flv_start file.now) }
{
    match flv_start(file) {
        Ok(next) => HozgrimFlvStart { error: 0, next },
        Err(error) => HozgrimFlvStart {
            error: error.into(),
            next: 0,
        },
    }
}

fn no_flv_frame(error: ErrorCode, next: usize) -> HozgrimFlvFrame
    ensures { result ≡ no_flv_frame error next }
{
    HozgrimFlvFrame {
        error: error.into(),
        found: 0,
        frame_type: 0,
        timestamp: 0,
        start: 0,
        length: 0,
        next,
    }
}

// The next frame of an FLV file from a place on, which is read as a tag's first byte: other tags are stepped over. The frame's body is the part of the
// file that has this start and length, and `next` is the place behind its tag. At the clean end nothing is found, and `next` is the file's length.
#[unsafe(no_mangle)]
pub extern "C" fn hozgrim_flv_next(file: &[u8], at: usize) -> HozgrimFlvFrame
    ensures { result ≡ hozgrim_flv_frame (length file.now) (flv_next file.now at) }
{
    match flv_next(file, at) {
        Ok(
            Some(
                FlvFrame {
                    frame_type,
                    timestamp,
                    start,
                    length,
                    next,
                },
            ),
        ) => HozgrimFlvFrame {
            error: 0,
            found: 1,
            frame_type,
            timestamp,
            start,
            length,
            next,
        },
        Ok(None) => no_flv_frame(ErrorCode::Ok, file.len()),
        Err(error) => no_flv_frame(error, 0),
    }
}

// Writes the start of an FLV file.
#[unsafe(no_mangle)]
pub extern "C" fn hozgrim_flv_write_start(output: &mut [u8]) -> HozgrimWritten
    ensures answer { result ≡ hozgrim_written (start_answer (length output.old)) }
    ensures output { output.new ≡ start_output output.old }
{
    flv_write_start(output).into()
}

// Writes a frame as a tag of an FLV file.
#[unsafe(no_mangle)]
pub extern "C" fn hozgrim_flv_write_frame(
    frame_type: u32,
    timestamp: u32,
    body: &[u8],
    output: &mut [u8],
) -> HozgrimWritten
    ensures answer { result ≡ hozgrim_written (frame_answer (given_frame frame_type timestamp body.now) (length output.old)) }
    ensures output { output.new ≡ frame_output (given_frame frame_type timestamp body.now) output.old }
{
    flv_write_frame(frame_type, timestamp, body, output).into()
}

// The level of a payload as it is: nothing is peeled, and no other entry looks at it.
#[unsafe(no_mangle)]
pub extern "C" fn hozgrim_level(frame_type: u32, payload: &[u8]) -> HozgrimLevel
    ensures { result ≡ hozgrim_level (level_answer frame_type payload.now) }
{
    match g711::level(frame_type, payload) {
        Ok(level) => HozgrimLevel { error: 0, level },
        Err(error) => HozgrimLevel {
            error: error.into(),
            level: 0,
        },
    }
}

// A time in nanoseconds, any number, as milliseconds and an offset of at most 999,999 nanoseconds.
#[unsafe(no_mangle)]
pub extern "C" fn hozgrim_split_time(ns: i64) -> HozgrimSplitTime
    ensures { result ≡ hozgrim_split_time (split_time ns) }
{
    let split = frame::time::split_time(ns);
    HozgrimSplitTime {
        milliseconds: split.milliseconds,
        offset: split.offset,
    }
}
