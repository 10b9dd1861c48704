//! Default retentions.

ghost use Rattle.std.specs.Prelude.{◌≡◌, codes};
ghost use Rattle.serde_json.specs.View.{view};
ghost use Rattle.json_shape.specs.Fields.{field, number_within};
ghost use Rattle.field_kinds.specs.Rules.{period_of, period, default_retention};

use crate::reader::FromJson;
use crate::retention::mode_at;
use b2_base::Memory;
use b2_types::{DefaultRetention, Period};
use serde_json::Value;
use std::alloc::Global;

fn duration_at(body: &Value, high: u32) -> Option<u32>
    ensures { result ≡ number_within 1 high (field (codes "duration") (view body.now)) }
{
    let found = body.get("duration")?;
    match found.as_u64() {
        Some(number) if 1 <= number && number <= u64::from(high) => Some(number as u32),
        _ => None,
    }
}

fn period_of(body: &Value, unit: &[u8]) -> Option<Period>
    ensures { result ≡ period_of (view body.now) unit.now }
{
    if unit == b"days".as_slice() {
        let days = duration_at(body, 36_500)?;
        return Some(Period::Days(days));
    }
    if unit == b"years".as_slice() {
        let years = duration_at(body, 100)?;
        return Some(Period::Years(years));
    }
    None
}

fn period_at(body: &Value) -> Option<Period>
    ensures { result ≡ period (field (codes "period") (view body.now)) }
{
    let found = body.get("period")?;
    let unit = found.get("unit")?;
    let unit = unit.as_str()?;
    period_of(found, unit.as_bytes())
}

impl FromJson for Option<DefaultRetention> {
    ghost kind = { default_retention };

    fn from_json(
        _alloc: Global,
        value: &Value,
    ) -> Result<Option<Option<DefaultRetention>>, Memory> {
        if !value.is_object() {
            return Ok(None);
        }
        let Some(mode) = mode_at(value) else {
            return Ok(None);
        };
        let Some(mode) = mode else {
            return Ok(Some(None));
        };
        match period_at(value) {
            Some(period) => Ok(Some(Some(DefaultRetention { mode, period }))),
            None => Ok(None),
        }
    }
}
