//! The fields of an asynchronous packet.

ghost use Rattle.std.specs.Prelude.{◌≡◌, ◌++◌, OnOk, Some, codes, decimal};
ghost use Rattle.fw_async.specs.Heads.{head_of};
ghost use Rattle.fw_log_names.specs.Names.{function_name, tcode, tcode_name, retry_name};
ghost use Rattle.fw_log_json_packets.specs.Values.{field, code};
ghost use Rattle.fw_log_json_packets.specs.Packets.{place_fields, rcode_fields, target_fields, quadlet_field, block_fields, lock_fields, data_fields, packet_fields};

use crate::head::put_head;
use crate::values::{put_code, put_count, put_data, put_text};
use fw_async::{Head, Packet};
use fw_log_json_packets::{place, quadlet};
use fw_log_names::{
    Pairs, function_name, put_word, rcode_name, rcode_row, retry_name, retry_row, tcode_row,
};
use fw_words::COMPARE_SWAP;
use std::alloc::AllocError;

// What a packet begins with.
fn head_of<'p>(p: &'p Packet) -> &'p Head
    ensures { result.now ≡ head_of p.now }
{
    match p {
        Packet::WriteQuadlet { head, .. } => head,
        Packet::WriteBlock { head, .. } => head,
        Packet::WriteReply { head, .. } => head,
        Packet::ReadQuadlet { head, .. } => head,
        Packet::ReadBlock { head, .. } => head,
        Packet::ReadQuadletReply { head, .. } => head,
        Packet::ReadBlockReply { head, .. } => head,
        Packet::CycleStart { head, .. } => head,
        Packet::Lock { head, .. } => head,
        Packet::LockReply { head, .. } => head,
    }
}

// A code under its key and its name under another, one text.
macro_rules! code_text {
    ($key:literal, $name_key:literal, $code:literal, $name:literal) => {
        concat!($key, $code, $name_key, "\"", $name, "\"")
    };
}

macro_rules! put_tcode_text {
    ($text:expr, $code:literal, $name:literal) => {
        put_word($text, code_text!(r#","tcode":"#, r#","tcode_name":"#, $code, $name))
    };
}

macro_rules! put_retry_text {
    ($text:expr, $code:literal, $name:literal) => {
        put_word($text, code_text!(r#","retry":"#, r#","retry_name":"#, $code, $name))
    };
}

macro_rules! put_rcode_text {
    ($text:expr, $code:literal, $name:literal) => {
        put_word($text, code_text!(r#","rcode":"#, r#","rcode_name":"#, $code, $name))
    };
}

// Appends a transaction code and its name.
#[inline(always)]
fn put_tcode(text: &mut Vec<u8>, p: &Packet) -> Result<(), AllocError>
    ensures { OnOk result (text.new.items ≡ text.old.items ++ code (codes ",\"tcode\":") (tcode p.now) (codes ",\"tcode_name\":") (Some (tcode_name p.now))) }
{
    tcode_row!(p, put_tcode_text, text)
}

// Appends a retry code and its name.
#[inline(always)]
pub(crate) fn put_retry(text: &mut Vec<u8>, rt: u8) -> Result<(), AllocError>
    ensures { OnOk result (text.new.items ≡ text.old.items ++ code (codes ",\"retry\":") rt (codes ",\"retry_name\":") (retry_name rt)) }
{
    retry_row!(
        rt,
        put_code(
            text,
            r#","retry":"#,
            u64::from(rt),
            r#","retry_name":"#,
            retry_name(rt),
        ),
        put_retry_text,
        text
    )
}

#[inline(always)]
fn put_place(text: &mut Vec<u8>, pairs: &Pairs, offset: u64) -> Result<(), AllocError>
    ensures { OnOk result (text.new.items ≡ text.old.items ++ place_fields offset) }
{
    put_text(text, &place(pairs, offset))
}

#[inline(always)]
fn put_rcode(text: &mut Vec<u8>, rcode: u8) -> Result<(), AllocError>
    ensures { OnOk result (text.new.items ≡ text.old.items ++ rcode_fields rcode) }
{
    rcode_row!(
        rcode,
        put_code(
            text,
            r#","rcode":"#,
            u64::from(rcode),
            r#","rcode_name":"#,
            rcode_name(rcode),
        ),
        put_rcode_text,
        text
    )
}

fn put_target(text: &mut Vec<u8>, pairs: &Pairs, p: &Packet) -> Result<(), AllocError>
    ensures { OnOk result (text.new.items ≡ text.old.items ++ target_fields p.now) }
{
    match p {
        Packet::WriteQuadlet { offset, .. } => put_place(text, pairs, *offset),
        Packet::WriteBlock { offset, .. } => put_place(text, pairs, *offset),
        Packet::WriteReply { rcode, .. } => put_rcode(text, *rcode),
        Packet::ReadQuadlet { offset, .. } => put_place(text, pairs, *offset),
        Packet::ReadBlock { offset, .. } => put_place(text, pairs, *offset),
        Packet::ReadQuadletReply { rcode, .. } => put_rcode(text, *rcode),
        Packet::ReadBlockReply { rcode, .. } => put_rcode(text, *rcode),
        Packet::CycleStart { offset, .. } => put_place(text, pairs, *offset),
        Packet::Lock { offset, .. } => put_place(text, pairs, *offset),
        Packet::LockReply { rcode, .. } => put_rcode(text, *rcode),
    }
}

#[inline(always)]
fn put_quadlet(text: &mut Vec<u8>, pairs: &Pairs, value: u32) -> Result<(), AllocError>
    ensures { OnOk result (text.new.items ≡ text.old.items ++ quadlet_field value) }
{
    put_text(text, &quadlet(pairs, value))
}

fn put_block(text: &mut Vec<u8>, pairs: &Pairs, bytes: &[u8]) -> Result<(), AllocError>
    ensures { OnOk result (text.new.items ≡ text.old.items ++ block_fields bytes.now) }
{
    put_count(text, r#","data_length":"#, bytes.len() as u64)?;
    put_data(text, pairs, r#","data":"#, bytes)
}

// Appends the function of a lock and its name.
#[inline(always)]
fn put_function(text: &mut Vec<u8>, function: u8) -> Result<(), AllocError>
    ensures { OnOk result (text.new.items ≡ text.old.items ++ code (codes ",\"extended_tcode\":") function (codes ",\"extended_tcode_name\":") (function_name function)) }
{
    // Most locks are of this function.
    if function == COMPARE_SWAP {
        return put_word(
            text,
            code_text!(
                r#","extended_tcode":"#,
                r#","extended_tcode_name":"#,
                "2",
                "compare_swap"
            ),
        );
    }
    put_code(
        text,
        r#","extended_tcode":"#,
        u64::from(function),
        r#","extended_tcode_name":"#,
        function_name(function),
    )
}

fn put_lock(text: &mut Vec<u8>, pairs: &Pairs, function: u8, bytes: &[u8]) -> Result<(), AllocError>
    ensures { OnOk result (text.new.items ≡ text.old.items ++ lock_fields function bytes.now) }
{
    put_count(text, r#","data_length":"#, bytes.len() as u64)?;
    put_function(text, function)?;
    put_data(text, pairs, r#","data":"#, bytes)
}

fn put_length(text: &mut Vec<u8>, length: u16) -> Result<(), AllocError>
    ensures { OnOk result (text.new.items ≡ text.old.items ++ field (codes ",\"data_length\":") (decimal length)) }
{
    put_count(text, r#","data_length":"#, u64::from(length))
}

fn put_contents(text: &mut Vec<u8>, pairs: &Pairs, p: &Packet) -> Result<(), AllocError>
    ensures { OnOk result (text.new.items ≡ text.old.items ++ data_fields p.now) }
{
    match p {
        Packet::WriteQuadlet { value, .. } => put_quadlet(text, pairs, *value),
        Packet::WriteBlock { bytes, .. } => put_block(text, pairs, bytes.as_slice()),
        Packet::WriteReply { .. } => Ok(()),
        Packet::ReadQuadlet { .. } => Ok(()),
        Packet::ReadBlock { length, .. } => put_length(text, *length),
        Packet::ReadQuadletReply { value, .. } => put_quadlet(text, pairs, *value),
        Packet::ReadBlockReply { bytes, .. } => put_block(text, pairs, bytes.as_slice()),
        Packet::CycleStart { time, .. } => put_quadlet(text, pairs, *time),
        Packet::Lock {
            function,
            bytes,
            ..
        } => put_lock(text, pairs, *function, bytes.as_slice()),
        Packet::LockReply {
            function,
            bytes,
            ..
        } => put_lock(text, pairs, *function, bytes.as_slice()),
    }
}

// Appends the fields of an asynchronous packet.
pub(crate) fn put_packet(text: &mut Vec<u8>, pairs: &Pairs, p: &Packet) -> Result<(), AllocError>
    ensures { OnOk result (text.new.items ≡ text.old.items ++ packet_fields p.now) }
{
    put_tcode(text, p)?;
    put_head(text, pairs, head_of(p))?;
    put_target(text, pairs, p)?;
    put_contents(text, pairs, p)
}
