//! Streams that come in pieces.
use super::asks::asks;
use krs_wire::{Feed, WireFault, encode_ask};
use std::alloc::{AllocError, Global};
use std::test::Fail;

/// The frames of all asks, one after the other.
fn all_frames(alloc: Global) -> Result<Vec<u8>, AllocError> {
    let mut stream = Vec::new(alloc);
    for (frame, _, _) in asks() {
        stream.extend_from_slice(frame)?;
    }
    Ok(stream)
}

/// Takes a piece, and encodes its asks behind the text.
fn encode(
    alloc: Global,
    feed: &mut Feed,
    piece: &[u8],
    text: &mut Vec<u8>,
) -> Result<(), WireFault> {
    let frames = feed.feed(piece)?;
    for framed in &frames {
        text.extend_from_slice(&encode_ask(alloc, &framed.ask)?)?;
    }
    feed.reuse(frames);
    Ok(())
}

/// What is encoded of a stream that comes cut there.
fn encoded_in_two(alloc: Global, stream: &[u8], cut: usize) -> Result<Vec<u8>, WireFault> {
    let (mut feed, mut text) = (Feed::new(alloc), Vec::new(alloc));
    let (front, back) = stream.split_at(cut.min(stream.len()));
    encode(alloc, &mut feed, front, &mut text)?;
    encode(alloc, &mut feed, back, &mut text)?;
    match feed.fault() {
        Some(fault) => Err(fault),
        None => Ok(text),
    }
}

#[test]
fn a_stream_in_any_two_pieces_is_one_stream(rt: HostRuntime) -> Result<(), Fail> {
    let stream = all_frames(rt.alloc())?;
    for cut in 0..=stream.len() {
        let text = encoded_in_two(rt.alloc(), &stream, cut)?;
        assert!(rt; text.as_slice() == stream.as_slice(), "cut at {cut}");
    }
    Ok(())
}
