// Lines of the text format of Prometheus. Each name begins with `vbroker_`.

ghost use Rattle.std.specs.Prelude.{codes, string_bytes};
ghost use Rattle.admin.specs.Metrics.{AddsText, head_text, labelled_text, level_text, limit_head_text, limit_text, metric_text};

use crate::view::Filled;
use std::alloc::AllocError;

// Appends a level, and the metric with its limit.
pub(crate) fn put_level(
    text: &mut String,
    name: &str,
    help: &str,
    filled: &Filled,
) -> Result<(), AllocError>
    ensures { AddsText result (string_bytes text.old) (string_bytes text.new)
        (level_text name.now help.now filled.now) }
{
    put_metric(text, name, "gauge", help, filled.count)?;
    put_limit(text, name, filled.limit)
}

// Appends a count since the start.
pub(crate) fn put_count(
    text: &mut String,
    name: &str,
    help: &str,
    count: u64,
) -> Result<(), AllocError>
    ensures { AddsText result (string_bytes text.old) (string_bytes text.new)
        (metric_text name.now (codes "counter") help.now count) }
{
    put_metric(text, name, "counter", help, count)
}

// Appends a metric with one value: its help, its type, and a sample.
fn put_metric(
    text: &mut String,
    name: &str,
    kind: &str,
    help: &str,
    value: u64,
) -> Result<(), AllocError>
    ensures { AddsText result (string_bytes text.old) (string_bytes text.new)
        (metric_text name.now kind.now help.now value) }
{
    put_head(text, name, kind, help)?;
    write!(text, "vbroker_{name} {value}\n")
}

// Appends the metric with a limit.
fn put_limit(text: &mut String, name: &str, limit: u64) -> Result<(), AllocError>
    ensures { AddsText result (string_bytes text.old) (string_bytes text.new)
        (limit_text name.now limit) }
{
    put_limit_head(text, name)?;
    write!(text, "vbroker_{name}_limit {limit}\n")
}

// Appends the help and the type of the metric with a limit.
fn put_limit_head(text: &mut String, name: &str) -> Result<(), AllocError>
    ensures { AddsText result (string_bytes text.old) (string_bytes text.new)
        (limit_head_text name.now) }
{
    write!(
        text,
        "# HELP vbroker_{name}_limit At most.\n# TYPE vbroker_{name}_limit gauge\n"
    )
}

// Appends the help and the type of a metric.
pub(crate) fn put_head(
    text: &mut String,
    name: &str,
    kind: &str,
    help: &str,
) -> Result<(), AllocError>
    ensures { AddsText result (string_bytes text.old) (string_bytes text.new)
        (head_text name.now kind.now help.now) }
{
    write!(
        text,
        "# HELP vbroker_{name} {help}\n# TYPE vbroker_{name} {kind}\n"
    )
}

// Appends a sample with a label whose value is a number.
pub(crate) fn put_labelled(
    text: &mut String,
    name: &str,
    label: &str,
    number: u8,
    value: u64,
) -> Result<(), AllocError>
    ensures { AddsText result (string_bytes text.old) (string_bytes text.new)
        (labelled_text name.now label.now number value) }
{
    write!(text, "vbroker_{name}{{{label}=\"{number}\"}} {value}\n")
}
