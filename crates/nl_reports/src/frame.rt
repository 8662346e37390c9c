//! Where things stand in a picture, its axis of time and its curve, and the bars of commands.
ghost use Rattle.std.specs.Prelude.{◌≡◌, ◌<◌, ◌≤◌, ◌^◌, ◌++◌, List, OnOk, All, set};
ghost use Rattle.nl_reports.specs.{Bars.{bar, bar_before, kind_of, long_bar, name_text, opened, short_bar, short_in, width_of, with_short}, Curve.{curve}, Frame.{IsFrame, foot_of, frame_of, height, line_at, pitch, x_at, y_at}, Jobs.{seen}, Moments.{AreMoments}, Spans.{IsEarly}, Ticks.{ticks}, declared.moments.Span.{Span}};

use crate::job::Job;
use crate::moments::{Moments, Near, Span};
use nl_tool_texts::{
    AllocResult, Part, append, append_cut_name, append_label, base_of, place, put, step_of, work_of,
};

/// `wall` is in milliseconds, and `top` is the highest lane.
#[derive(Clone, Copy, Drop)]
pub struct Frame {
    pub began: u64,
    pub wall: u64,
    pub top: u64,
}

impl Frame {
    /// The commands stand in the order of START.
    pub(crate) fn of(spans: &[Span], lanes: &[u64]) -> Frame
        requires early { All IsEarly spans.now }
        ensures value { result ≡ frame_of spans.now lanes.now }
        ensures early { IsFrame result }
    {
        let began = spans.first().map_or(0, |first| first.began);
        let mut last = 0;
        for span in spans {
            last = last.max(span.closed());
        }
        Frame {
            began,
            wall: last.saturating_sub(began),
            top: lanes.iter().fold(0, |top: u64, lane: &u64| top.max(*lane)),
        }
    }

    /// In tenths of a pixel, as all places and sizes in a picture.
    pub(crate) fn x_at(&self, at: u64) -> u64
        requires early { at < 2 ^ 33 }
        ensures value { result ≡ x_at self.now at }
        ensures bound { result ≤ 15400 }
    {
        let ms = at.saturating_sub(self.began);
        1000 + (ms * 14400 / self.wall.max(1)).min(14400)
    }

    // The distance of two lanes: up to 64 are high enough for names, and more are as high together as a screen.
    fn pitch(&self) -> u128
        ensures value { result ≡ pitch self.now }
        ensures bound { result ≤ 220 }
    {
        if self.top < 64 {
            return 220;
        }
        (8000 / (u128::from(self.top) + 1)).max(1)
    }

    /// The height of a bar.
    pub(crate) fn height(&self) -> u128
        ensures value { result ≡ height self.now }
    {
        self.pitch() - self.pitch() / 8
    }

    pub(crate) fn y_at(&self, lane: u64) -> u128
        ensures value { result ≡ y_at self.now lane }
        ensures bound { result < 2 ^ 80 }
    {
        1100 + u128::from(lane) * self.pitch()
    }

    pub(crate) fn foot(&self) -> u128
        ensures value { result ≡ foot_of self.now }
        ensures bound { result < 2 ^ 100 }
    {
        self.y_at(self.top) + self.pitch() + 1200
    }

    /// The list stands below the curve.
    pub(crate) fn line_at(&self, line: u64) -> u128
        ensures value { result ≡ line_at self.now line }
        ensures bound { result < 2 ^ 101 }
    {
        self.foot() + 600 + u128::from(line) * 180
    }
}

pub(crate) fn append_ticks(frame: &Frame, out: &mut Vec<u8>) -> AllocResult
    requires early { IsFrame frame.now }
    ensures items { OnOk result (out.new.items ≡ out.old.items ++ ticks frame.now) }
{
    let step = step_of(frame.wall);
    for i in 0..frame.wall / step + 1 {
        let ms = i * step;
        let x = u128::from(frame.x_at(frame.began + ms));
        put!(out; b"<path class=\"g\" d=\"M" {x} b" 1000V" {frame.foot()} b"\"/><text class=\"m\" x=\""
            {x} b"\" y=\"950\" text-anchor=\"middle\">" [Part::Time(ms)] b"</text>\n")?;
    }
    Ok(())
}

pub(crate) fn append_curve(frame: &Frame, moments: &Moments, out: &mut Vec<u8>) -> AllocResult
    requires early { IsFrame frame.now }
    ensures items { (cs : List Span) → AreMoments cs moments.now → OnOk result (out.new.items ≡ out.old.items ++ curve frame.now cs) }
{
    let foot = frame.foot();
    let most = u128::from(frame.top) + 1;
    put!(out; b"<path class=\"q\" d=\"M1000 " {foot})?;
    let mut near = Near::default();
    for i in 0..480_u64 {
        let count = moments.running_near(&mut near, frame.began + i * frame.wall / 480);
        let high = u128::from(count) * 800 / most;
        put!(out; b"V" {foot.saturating_sub(high)} b"H" {1030 + i * 30})?;
    }
    put!(out; b"V" {foot} b"z\"/>\n<text class=\"m\" x=\"950\" y=\"" {foot.saturating_sub(720)}
        b"\" text-anchor=\"end\">" {most}
        b" at a time</text>\n<text class=\"m\" x=\"950\" y=\"" {foot}
        b"\" text-anchor=\"end\">0</text>\n")
}

/// Commands of one lane that begin at one pixel and are too short for a bar: the kind of the first, and how many there are.
#[derive(Clone, Copy, Default, Drop)]
pub struct Short {
    pub pixel: u64,
    pub kind: u32,
    pub count: u64,
}

/// Appends the bar of a command in its lane. One too short for a bar joins those that wait in its lane, once those of another pixel are drawn.
pub(crate) fn append_bar(
    frame: &Frame,
    job: &Job,
    lane: u64,
    shorts: &mut Vec<Short>,
    out: &mut Vec<u8>,
) -> AllocResult
    requires early { IsEarly job.now.span }
    ensures items { OnOk result (out.new.items ≡ out.old.items ++ bar frame.now shorts.old.items (seen job.now, lane)) }
    ensures shorts { OnOk result (shorts.new.items ≡ opened frame.now shorts.old.items (seen job.now, lane)) }
{
    let x = frame.x_at(job.span.began);
    let width = frame.x_at(job.span.closed()).saturating_sub(x);
    // Half a pixel is too short for a bar.
    if width >= 5 {
        return append_long(frame, job, lane, width, out);
    }
    let pixel = x / 10;
    let Some(held) = shorts.get_mut(lane as usize) else {
        return Ok(());
    };
    if held.pixel == pixel {
        held.count = held.count.saturating_add(1);
        return Ok(());
    }
    append_short(frame, lane, *held, out)?;
    *held = Short {
        pixel,
        kind: kind_of(job),
        count: 1,
    };
    Ok(())
}

/// Appends the bar of short commands; none, if there are none.
pub(crate) fn append_short(frame: &Frame, lane: u64, short: Short, out: &mut Vec<u8>) -> AllocResult
    ensures items { OnOk result (out.new.items ≡ out.old.items ++ short_bar frame.now lane short) }
{
    if short.count == 0 {
        return Ok(());
    }
    put!(out; b"<rect class=\"k" {short.kind} b"\" x=\"" {u128::from(short.pixel) * 10} b"\" y=\""
        {frame.y_at(lane)} b"\" width=\"" {10} b"\" height=\"" {frame.height()} b"\"><title>" {short.count}
        b" short</title></rect>\n")
}

fn append_long(frame: &Frame, job: &Job, lane: u64, width: u64, out: &mut Vec<u8>) -> AllocResult
    requires early { IsEarly job.now.span }
    requires width { width ≡ width_of frame.now (seen job.now) }
    ensures items { OnOk result (out.new.items ≡ out.old.items ++ long_bar frame.now (seen job.now) lane) }
{
    let name = job.name();
    let x = frame.x_at(job.span.began);
    // A bar that is wide enough has a gap behind it.
    let drawn = if width < 20 { width } else { width - 6 };
    put!(out; b"<rect class=\"k" {kind_of(job)} b"\" x=\"" {x} b"\" y=\"" {frame.y_at(lane)}
        b"\" width=\"" {drawn} b"\" height=\"" {frame.height()} b"\"><title>")?;
    append_label(*out.allocator(), name, out)?;
    let more = job.outputs.len().saturating_sub(1);
    if more > 0 {
        put!(out; b" and " {more} b" more")?;
    }
    put!(out; b"\n" [Part::Seconds(job.span.time())] b" s from "
        [Part::Seconds(job.span.began.saturating_sub(frame.began))] b" s</title></rect>\n")?;
    // So many letters of a name stand in a bar, 22 at most.
    let room = (width.saturating_sub(80) / 70).min(22);
    if room < 4 || frame.top >= 64 {
        return Ok(());
    }
    put!(out; b"<text x=\"" {x + 40} b"\" y=\"" {frame.y_at(lane) + 135} b"\">")?;
    append_cut_name(*out.allocator(), room as usize, base_of(name), out)?;
    append(b"</text>\n", out)
}

fn kind_of(job: &Job) -> u32
    ensures value { result ≡ kind_of (seen job.now) }
{
    place(work_of(job.name()))
}
