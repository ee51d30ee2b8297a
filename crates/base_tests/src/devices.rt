//! Frames, rows and states by tables.
use dev_core::{ByteRow, CanState, DevState, Frame, FrameRow, UartState, is_valid_state};

const BYTES: [u8; 16] = [1, 2, 3, 4, 5, 6, 7, 8, 9, 10, 11, 12, 13, 14, 15, 16];

/// Identifiers, and how many bytes a frame carries or asks for.
static FRAMES: [(u16, usize); 5] = [(0x000, 0), (0x100, 1), (0x555, 5), (0x7FE, 7), (0x7FF, 8)];

/// A data frame with the first bytes.
fn data_frame(id: u16, len: usize) -> Frame {
    Frame::new(id % 2048, &BYTES[..len.min(8)])
}

/// Whether a data frame shows these.
fn shows_data(frame: &Frame, id: u16, data: &[u8]) -> bool {
    frame.id() == id
        && usize::from(frame.len()) == data.len()
        && !frame.is_remote()
        && frame.data() == data
        && frame.held_size() == 2 + data.len()
}

/// Whether a remote frame shows these, and takes two bytes.
fn shows_remote(frame: &Frame, id: u16, len: usize) -> bool {
    frame.id() == id
        && usize::from(frame.len()) == len
        && frame.is_remote()
        && frame.data().is_empty()
        && frame.held_size() == 2
}

#[test]
fn a_frame_shows_what_it_was_made_of(rt: HostRuntime) {
    for row in &FRAMES {
        let (id, len) = *row;
        let frame = data_frame(id, len);
        let remote = Frame::new_remote(id % 2048, len.min(8) as u8);
        assert!(rt; shows_data(&frame, id, &BYTES[..len.min(8)]));
        assert!(rt; shows_remote(&remote, id, len));
        assert!(rt; frame != remote && remote == remote);
    }
}

/// Whether a row gives these bytes, first to last.
fn pops(row: &mut ByteRow, bytes: &[u8]) -> bool {
    bytes.iter().all(|byte| row.pop_first() == Some(*byte))
}

/// Whether a row of these bytes gives them back and is empty then.
fn gives_back(bytes: &[u8]) -> bool {
    if bytes.len() > 16 {
        return false;
    }
    let mut row = ByteRow::of(bytes);
    row.items() == bytes
        && row.len() == bytes.len()
        && pops(&mut row, bytes)
        && row.is_empty()
        && row == ByteRow::new()
        && row.pop_first().is_none()
}

/// Whether a row gives these frames, first to last.
fn pops_frames(row: &mut FrameRow, frames: &[Frame]) -> bool {
    frames.iter().all(|frame| row.pop_first() == Some(*frame))
}

/// Whether a row of these three frames gives them back and is empty then.
fn gives_frames_back(frames: &[Frame; 3]) -> bool {
    let mut row = FrameRow::of(frames);
    row.items() == frames.as_slice()
        && row == row
        && row != FrameRow::new()
        && pops_frames(&mut row, frames)
        && row == FrameRow::new()
        && row.pop_first().is_none()
}

#[test]
fn a_row_keeps_its_items_in_order(rt: HostRuntime) {
    for len in 0..=BYTES.len() {
        assert!(rt; gives_back(&BYTES[..len]), "{len}");
    }
    let frames = [data_frame(1, 1), data_frame(2, 0), data_frame(1, 1)];
    assert!(rt; gives_frames_back(&frames));
    let others = [frames[0], frames[1], data_frame(1, 2)];
    assert!(rt; FrameRow::of(&frames) != FrameRow::of(&others));
}

/// A reset UART, but for interrupt enable, modem control, FIFOs, trigger level and received bytes.
fn uart(ier: u8, mcr: u8, fifos: bool, trigger: u8, held: usize) -> DevState {
    let mut uart = UartState::reset();
    uart.ier = ier;
    uart.mcr = mcr;
    uart.fifos = fifos;
    uart.trigger = trigger;
    uart.received = ByteRow::of(&BYTES[..held.min(16)]);
    DevState::Uart(uart)
}

/// A reset CAN controller, but for control, the clock divider and so many received frames of ten
/// bytes.
fn can(control: u8, divider: u8, held: usize) -> DevState {
    let mut can = CanState::reset();
    can.control = control;
    can.divider = divider;
    can.received = FrameRow::of(&[data_frame(0, 8); 32][..held.min(32)]);
    DevState::Can(can)
}

#[test]
fn a_state_is_valid_within_its_bounds(rt: HostRuntime) {
    let rows = [
        (DevState::Finisher, true),
        (uart(0x00, 0x00, false, 1, 0), true),
        (uart(0x0F, 0x1F, false, 1, 1), true),
        (uart(0x0F, 0x1F, true, 14, 16), true),
        (uart(0x00, 0x00, true, 1, 16), true),
        (uart(0x00, 0x00, true, 4, 0), true),
        (uart(0x00, 0x00, true, 8, 0), true),
        (uart(0x10, 0x00, false, 1, 0), false),
        (uart(0x00, 0x20, false, 1, 0), false),
        (uart(0x00, 0x00, false, 4, 0), false),
        (uart(0x00, 0x00, true, 0, 0), false),
        (uart(0x00, 0x00, true, 2, 0), false),
        (uart(0x00, 0x00, true, 15, 0), false),
        (uart(0x00, 0x00, false, 1, 2), false),
        (can(0x01, 0x00, 0), true),
        (can(0x1F, 0x6F, 6), true),
        (can(0x20, 0x00, 0), false),
        (can(0x01, 0x10, 0), false),
        (can(0x01, 0x80, 0), false),
        (can(0x01, 0x00, 7), false),
    ];
    for (place, (state, is_valid)) in rows.iter().enumerate() {
        assert!(rt; is_valid_state(state) == *is_valid, "row {place}");
    }
}
