// Refusals as an answer tells them.
ghost use Rattle.std.specs.Prelude.{◌≡◌};
ghost use Rattle.fabric.specs.Faults.{refusal as fabric_refusal};
ghost use Rattle.frame.specs.Faults.{refusal as frame_refusal};
ghost use Rattle.frame.specs.Refusals.{Refusal as Told};

use fabric::FabricFault;
use frame::FrameFault;
use std::fmt;

// What there is to tell of a refusal: its number, the layer that refuses, and its places.
pub trait Refusal {
    const LAYER: &'static str;

    ghost told: { Self → Told };

    fn number(&self) -> u8
        ensures { result ≡ (told self.now).number };

    fn port(&self) -> Option<u8>
        ensures { result ≡ (told self.now).port };

    fn octet(&self) -> Option<usize>
        ensures { result ≡ (told self.now).octet };
}

impl Refusal for FrameFault {
    const LAYER: &'static str = "frame";

    ghost told = { frame_refusal };

    fn number(&self) -> u8 {
        FrameFault::number(*self)
    }

    fn port(&self) -> Option<u8> {
        None
    }

    fn octet(&self) -> Option<usize> {
        FrameFault::octet(*self)
    }
}

impl Refusal for FabricFault {
    const LAYER: &'static str = "fabric";

    ghost told = { fabric_refusal };

    fn number(&self) -> u8 {
        FabricFault::number(*self)
    }

    fn port(&self) -> Option<u8> {
        Some(FabricFault::port(*self))
    }

    fn octet(&self) -> Option<usize> {
        None
    }
}

// A place, or `-` where there is none.
#[derive(Clone, Copy, PartialEq, Eq, Debug)]
struct Place<T>(Option<T>);

impl<T: fmt::Display> fmt::Display for Place<T> {
    fn fmt<W: fmt::Write>(&self, f: &mut fmt::Formatter<W>) -> fmt::Result {
        match &self.0 {
            Some(place) => write!(f, "{place}"),
            None => write!(f, "-"),
        }
    }
}

// A refusal as an answer tells it: number, layer, station, port, octet.
#[derive(Clone, Copy, PartialEq, Eq, Debug)]
pub struct Refused<T>(pub T);

impl<T: Refusal> fmt::Display for Refused<T> {
    fn fmt<W: fmt::Write>(&self, f: &mut fmt::Formatter<W>) -> fmt::Result {
        let number = self.0.number();
        let layer = T::LAYER;
        let port = Place(self.0.port());
        let octet = Place(self.0.octet());
        write!(f, "no {number} {layer} st=- port={port} oct={octet}")
    }
}
