// Marks for two ports: functions, since `Ports` is the fabric library's.
ghost use Rattle.std.specs.Prelude.{◌≡◌};
ghost use Rattle.node.specs.Ports.{at, bpr_of, meet, only, some, with_mark, within};

use crate::types::Port;
use fabric::Ports;

pub(crate) fn only(port: Port) -> Ports
    ensures { result ≡ only port }
{
    with_mark(Ports::NONE, port, true)
}

pub(crate) fn at(marks: Ports, port: Port) -> bool
    ensures { result ≡ at marks port }
{
    match port {
        Port::Zero => marks.p0,
        Port::One => marks.p1,
    }
}

pub(crate) fn with_mark(marks: Ports, port: Port, value: bool) -> Ports
    ensures { result ≡ with_mark marks port value }
{
    match port {
        Port::Zero => Ports { p0: value, ..marks },
        Port::One => Ports { p1: value, ..marks },
    }
}

pub(crate) fn some(marks: Ports) -> bool
    ensures { result ≡ some marks }
{
    marks.p0 || marks.p1
}

pub(crate) fn within(marks: Ports, others: Ports) -> bool
    ensures { result ≡ within marks others }
{
    (!marks.p0 || others.p0) && (!marks.p1 || others.p1)
}

pub(crate) fn meet(marks: Ports, others: Ports) -> Ports
    ensures { result ≡ meet marks others }
{
    Ports {
        p0: marks.p0 && others.p0,
        p1: marks.p1 && others.p1,
    }
}

pub(crate) fn bpr_of(blocked: Ports) -> bool
    ensures { result ≡ bpr_of blocked }
{
    blocked.p1 && !blocked.p0
}
