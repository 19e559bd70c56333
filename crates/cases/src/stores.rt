// A frame offered to a store, held against stored answers, outputs and buffers; then what a viewer that joins late is sent.
ghost use Rattle.std.specs.Prelude.{◌<◌, ◌≤◌};

use super::compared::Compared;
use super::input::Input;
use super::passes::numbers_of;
use super::print::magnitude;
use frame_store::late::{LateInfo, late_info, late_part};
use frame_store::{StoreAnswer, StoreLengths, Stored, store_frame};
use std::io;
use std::io::Read;

// No buffer of a row is longer.
const LONGEST: usize = 1024;

// How many numbers an answer has. The call's error is the first.
const NUMBERS: usize = 33;

// Where the report, the record and what a late viewer is sent start in them.
const REPORT: usize = 1;

const RECORD: usize = 21;

const LATE: usize = 24;

// How long each buffer is.
#[derive(Clone, Copy)]
struct Sizes {
    video: usize,
    audio: usize,
    keyframe: usize,
    ghost video_fits: { video ≤ 1024 },
    ghost audio_fits: { audio ≤ 1024 },
    ghost keyframe_fits: { keyframe ≤ 1024 },
}

impl Sizes {
    // None if a buffer is too long.
    fn new(video: usize, audio: usize, keyframe: usize) -> Option<Sizes> {
        if LONGEST < video || LONGEST < audio || LONGEST < keyframe {
            return None;
        }
        Some(Sizes {
            video,
            audio,
            keyframe,
        })
    }
}

// The buffers of a row, at the front of what there is room for.
#[derive(Clone, Copy)]
struct Buffers {
    video: [u8; LONGEST],
    audio: [u8; LONGEST],
    keyframe: [u8; LONGEST],
    sizes: Sizes,
}

impl Buffers {
    fn new(sizes: Sizes) -> Buffers {
        Buffers {
            video: [0; LONGEST],
            audio: [0; LONGEST],
            keyframe: [0; LONGEST],
            sizes,
        }
    }

    // One behind the other: whether there were enough bytes.
    fn read(&mut self, input: &mut Input<impl Eprint + Drop, impl Read>) -> bool {
        let sizes = self.sizes;
        input.bytes(&mut self.video[..sizes.video])
            && input.bytes(&mut self.audio[..sizes.audio])
            && input.bytes(&mut self.keyframe[..sizes.keyframe])
    }

    fn video(&self) -> &[u8] {
        &self.video[..self.sizes.video]
    }

    fn audio(&self) -> &[u8] {
        &self.audio[..self.sizes.audio]
    }

    fn keyframe(&self) -> &[u8] {
        &self.keyframe[..self.sizes.keyframe]
    }

    fn late(&self, lengths: StoreLengths, number: usize) -> LateInfo {
        late_info(lengths, self.video(), self.audio(), self.keyframe(), number)
    }

    fn late_part(&self, lengths: StoreLengths, number: usize) -> &[u8] {
        late_part(lengths, self.video(), self.audio(), self.keyframe(), number)
    }
}

fn same_answer(
    compared: Compared<impl Print + Copy>,
    stored: &[u32; NUMBERS],
    answer: StoreAnswer,
) -> io::Result<bool> {
    let same_error = compared.number(0, stored[0], magnitude(answer.error))?;
    let got = numbers_of(answer.report);
    let same_report = compared.numbers(REPORT, &stored[REPORT..RECORD], &got)?;
    Ok(same_error && same_report)
}

fn same_record(
    compared: Compared<impl Print + Copy>,
    stored: &[u32; NUMBERS],
    lengths: StoreLengths,
) -> io::Result<bool> {
    let got = [
        lengths.video as u64,
        lengths.audio as u64,
        lengths.keyframe as u64,
    ];
    compared.numbers(RECORD, &stored[RECORD..LATE], &got)
}

// The frame of this number that a late viewer is sent. The part is as long as is said.
fn same_late_frame(
    compared: Compared<impl Print + Copy>,
    stored: &[u32; NUMBERS],
    lengths: StoreLengths,
    buffers: &Buffers,
    number: usize,
) -> io::Result<bool>
    requires { number < 4 }
{
    let info = buffers.late(lengths, number);
    let part = buffers.late_part(lengths, number);
    let at = LATE + 1 + 2 * number;
    let length = stored[at + 1];
    let same_kind = compared.number(at, stored[at], u64::from(u8::from(info.kind)))?;
    let same_length = compared.number(at + 1, length, info.length as u64)?;
    let same_part = compared.number(NUMBERS + number, length, part.len() as u64)?;
    Ok(same_kind && same_length && same_part)
}

fn same_late(
    compared: Compared<impl Print + Copy>,
    stored: &[u32; NUMBERS],
    lengths: StoreLengths,
    buffers: &Buffers,
) -> io::Result<bool> {
    let info = buffers.late(lengths, 0);
    let mut alike = compared.number(LATE, stored[LATE], info.count as u64)?;
    for number in 0..4 {
        alike &= same_late_frame(compared, stored, lengths, buffers, number)?;
    }
    Ok(alike)
}

fn same_kept(
    compared: Compared<impl Print + Copy>,
    stored: &[u32; NUMBERS],
    kept: Stored,
    buffers: &Buffers,
) -> io::Result<bool> {
    let lengths = kept.lengths;
    let answers_alike = same_answer(compared, stored, kept.answer)?;
    let records_alike = same_record(compared, stored, lengths)?;
    let late_alike = same_late(compared, stored, lengths, buffers)?;
    Ok(answers_alike && records_alike && late_alike)
}

fn same_buffers(
    compared: Compared<impl Print + Copy>,
    stored: &Buffers,
    got: &Buffers,
) -> io::Result<bool> {
    let same_video = compared.bytes(1, stored.video(), got.video())?;
    let same_audio = compared.bytes(2, stored.audio(), got.audio())?;
    let same_keyframe = compared.bytes(3, stored.keyframe(), got.keyframe())?;
    Ok(same_video && same_audio && same_keyframe)
}

// The route flag, the lengths of the buffers, the record and the buffers stand behind the payload; behind them the answer, the output and the buffers
// afterwards.
pub(crate) fn run(
    compared: Compared<impl Print + Copy>,
    input: &mut Input<impl Eprint + Drop, impl Read>,
    frame_type: u32,
    mask: u32,
    payload: &[u8],
    output: &mut [u8],
    stored: &mut [u8],
) -> io::Result<Option<bool>> {
    let mut flag = [0u32];
    let mut lengths = [0u32; 6];
    if !(input.numbers(&mut flag) && input.numbers(&mut lengths)) {
        return Ok(None);
    }
    let [route_has_video] = flag;
    let [
        video_size,
        audio_size,
        keyframe_size,
        video,
        audio,
        keyframe,
    ] = lengths;
    let Some(sizes) = Sizes::new(
        video_size as usize,
        audio_size as usize,
        keyframe_size as usize,
    ) else {
        return Ok(None);
    };
    let mut buffers = Buffers::new(sizes);
    let mut stored_buffers = Buffers::new(sizes);
    let mut numbers = [0u32; NUMBERS];
    if !(buffers.read(input)
        && input.numbers(&mut numbers)
        && input.bytes(stored)
        && stored_buffers.read(input))
    {
        return Ok(None);
    }
    let lengths = StoreLengths {
        video: video as usize,
        audio: audio as usize,
        keyframe: keyframe as usize,
    };
    let kept = store_frame(
        lengths,
        frame_type,
        payload,
        mask,
        route_has_video,
        output,
        &mut buffers.video[..sizes.video],
        &mut buffers.audio[..sizes.audio],
        &mut buffers.keyframe[..sizes.keyframe],
    );
    let numbers_alike = same_kept(compared, &numbers, kept, &buffers)?;
    let outputs_alike = compared.bytes(0, stored, output)?;
    let buffers_alike = same_buffers(compared, &stored_buffers, &buffers)?;
    Ok(Some(numbers_alike && outputs_alike && buffers_alike))
}
