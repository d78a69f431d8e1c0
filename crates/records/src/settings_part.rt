// The settings' part of a record: eight bytes, and the tables whole.
ghost use Rattle.std.specs.Prelude.{◌≡◌, ◌+◌, ◌*◌, ◌≤◌, ◌<◌, length};
ghost use Rattle.octets.specs.Words.{value_length};
ghost use Rattle.octets.specs.Areas.{put};
ghost use Rattle.records.specs.Lengths.{settings_length, record_length};
ghost use Rattle.records.specs.SettingsPart.{quorums_byte, quorums_in, head_bytes, tables_bytes, settings_bytes, values_at, law_in, settings_in};

use octets::values::{VALUE_LENGTH, put_values, read_values};
use octets::word::put_bytes;
use quorums::Quorums;
use replica::Settings;

// Byte 0, the letter R.
pub(crate) const LETTER: u8 = b'R';

// Byte 1, the version of the layout.
pub(crate) const VERSION: u8 = 2;

// Byte 7: a in its four low bits, b in its four high ones.
fn quorums_byte(quorums: Quorums) -> u8
    requires { quorums_byte quorums < 256 }
    ensures { result ≡ quorums_byte quorums }
{
    quorums.to_decide + 16 * quorums.to_propose
}

// The eight bytes before the tables.
fn put_head(settings: Settings, area: &mut [u8])
    requires { (8 ≤ length area.old) × (settings.law.n < 256) × (settings.law.m < 256) × (settings.law.p < 256) × (quorums_byte settings.quorums < 256) }
    ensures { area.new ≡ put area.old 0 (head_bytes settings) }
{
    put_bytes(area, 0, &[LETTER, VERSION, settings.boxes, settings.own]);
    let n = settings.law.n as u8;
    let m = settings.law.m as u8;
    let p = settings.law.p as u8;
    let quorums = quorums_byte(settings.quorums);
    put_bytes(area, 4, &[n, m, p, quorums]);
}

// The tables, one after the other.
fn put_tables(law: law::Settings, area: &mut [u8])
    requires { settings_length ≤ length area.old }
    ensures { area.new ≡ put area.old 8 (tables_bytes law) }
{
    put_values(&law.a, area, 8);
    put_values(&law.l, area, 152);
    put_values(&law.c, area, 248);
    put_values(&law.k, area, 344);
    put_values(&law.low, area, 440);
    put_values(&law.high, area, 456);
    put_values(&law.start, area, 472);
}

// The settings' part, at the start of an area.
pub(crate) fn put_settings(settings: Settings, area: &mut [u8])
    requires { (settings_length ≤ length area.old) × (settings.law.n < 256) × (settings.law.m < 256) × (settings.law.p < 256) × (quorums_byte settings.quorums < 256) }
    ensures { area.new ≡ put area.old 0 (settings_bytes settings) }
{
    put_head(settings, area);
    let law = settings.law;
    put_tables(law, area);
}

// As many values from an offset on.
fn values_at<const N: usize>(bytes: &[u8], at: usize) -> [i32; N]
    requires { at + value_length * N ≤ length bytes.now }
    ensures { result ≡ values_at bytes.now at N }
{
    let mut values = [0i32; N];
    read_values(&bytes[at..at + VALUE_LENGTH * N], &mut values);
    values
}

// The law's settings in a record.
#[tactic(auto, unfolding(crate::specs::SettingsPart::law_in))]
fn law_in(bytes: &[u8]) -> law::Settings
    requires { length bytes.now ≡ record_length }
    ensures { result ≡ law_in bytes.now }
{
    let a = values_at(bytes, 8);
    let l = values_at(bytes, 152);
    let c = values_at(bytes, 248);
    let k = values_at(bytes, 344);
    let low = values_at(bytes, 440);
    let high = values_at(bytes, 456);
    let start = values_at(bytes, 472);
    law::Settings {
        n: bytes[4] as usize,
        m: bytes[5] as usize,
        p: bytes[6] as usize,
        a,
        l,
        c,
        k,
        low,
        high,
        start,
    }
}

// The quorum numbers in byte 7.
fn quorums_in(byte: u8) -> Quorums
    ensures { result ≡ quorums_in byte }
{
    Quorums {
        to_decide: byte % 16,
        to_propose: byte / 16,
    }
}

// The settings in a record.
#[tactic(auto, unfolding(crate::specs::SettingsPart::settings_in))]
pub fn settings_in(bytes: &[u8]) -> Settings
    requires { length bytes.now ≡ record_length }
    ensures { result ≡ settings_in bytes.now }
{
    let law = law_in(bytes);
    let quorums = quorums_in(bytes[7]);
    Settings {
        boxes: bytes[2],
        own: bytes[3],
        quorums,
        law,
    }
}
