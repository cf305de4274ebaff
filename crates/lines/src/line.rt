// The lines of the calls: a letter, and its fields.
ghost use Rattle.lines.specs.Lines.{CallOf, LineOf};

use crate::field::Fields;
use geometry::aabb::AABB;
use geometry::settings::Settings;
use model::Dot;

// An insert's line may end in an ink: `Insert` is one that does not, `InsertInk` one that does.
#[derive(Clone, Copy)]
pub enum Call {
    Settings(Settings),
    Insert(u32, AABB),
    InsertInk(Dot),
    Remove(u32, AABB),
    Cleanup,
    Query(AABB),
}

fn settings_line(rest: &[u8]) -> Option<Call>
    ensures { CallOf 83 rest.now result }
{
    let mut fields = Fields { rest };
    let root = fields.rect()?;
    let depth_limit = fields.natural()?;
    let leaf_limit = fields.natural()?;
    let smallest_cell = fields.natural()?;
    let settings = Settings {
        left: root.x1,
        top: root.y1,
        width: root.x2,
        height: root.y2,
        depth_limit,
        leaf_limit,
        smallest_cell,
    };
    fields.is_empty().then_some(Call::Settings(settings))
}

fn insert_line(rest: &[u8]) -> Option<Call>
    ensures { CallOf 73 rest.now result }
{
    let mut fields = Fields { rest };
    let id = fields.natural()?;
    let rect = fields.rect()?;
    if fields.is_empty() {
        return Some(Call::Insert(id, rect));
    }
    let ink = fields.natural()?;
    let dot = Dot { id, rect, ink };
    fields.is_empty().then_some(Call::InsertInk(dot))
}

fn remove_line(rest: &[u8]) -> Option<Call>
    ensures { CallOf 68 rest.now result }
{
    let mut fields = Fields { rest };
    let id = fields.natural()?;
    let rect = fields.rect()?;
    fields.is_empty().then_some(Call::Remove(id, rect))
}

fn cleanup_line(rest: &[u8]) -> Option<Call>
    ensures { CallOf 67 rest.now result }
{
    rest.is_empty().then_some(Call::Cleanup)
}

fn query_line(rest: &[u8]) -> Option<Call>
    ensures { CallOf 81 rest.now result }
{
    let mut fields = Fields { rest };
    let rect = fields.rect()?;
    fields.is_empty().then_some(Call::Query(rect))
}

// The call that a line, without its LF, is.
pub fn read_line(line: &[u8]) -> Option<Call>
    ensures { LineOf line.now result }
{
    if line.len() > 80 {
        return None;
    }
    match line {
        [b'S', rest @ ..] => settings_line(rest),
        [b'I', rest @ ..] => insert_line(rest),
        [b'D', rest @ ..] => remove_line(rest),
        [b'C', rest @ ..] => cleanup_line(rest),
        [b'Q', rest @ ..] => query_line(rest),
        _ => None,
    }
}
