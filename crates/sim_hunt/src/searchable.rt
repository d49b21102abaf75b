//! The protocols over which conditions are searched for.
ghost use Rattle.std.specs.Prelude.{refl};
ghost use Rattle.sim_hunt.specs.Hunts.{Has, Serves};

use sim_cli::{Only, Subject, Subjects, With};

/// A list of at most eight protocols over which conditions are searched for. A function that starts
/// threads must name the type of the nodes that they share, so a list names the subject at each of
/// its first eight places. Places past its end repeat the last subject, and nothing is searched
/// there.
pub trait Searchable: Subjects {
    /// The subjects at the places 0 to 7.
    type Subject0: Subject;

    type Subject1: Subject;

    type Subject2: Subject;

    type Subject3: Subject;

    type Subject4: Subject;

    type Subject5: Subject;

    type Subject6: Subject;

    type Subject7: Subject;

    /// The nodes of the list at a place are those of its subject, if the list has that place.
    ghost at0: { Has 0 Self.listed → Serves (Self.nodes 0)
        Self.Subject0.Node.Node.laws Self.Subject0.Node.Node.PROBES };

    ghost at1: { Has 1 Self.listed → Serves (Self.nodes 1)
        Self.Subject1.Node.Node.laws Self.Subject1.Node.Node.PROBES };

    ghost at2: { Has 2 Self.listed → Serves (Self.nodes 2)
        Self.Subject2.Node.Node.laws Self.Subject2.Node.Node.PROBES };

    ghost at3: { Has 3 Self.listed → Serves (Self.nodes 3)
        Self.Subject3.Node.Node.laws Self.Subject3.Node.Node.PROBES };

    ghost at4: { Has 4 Self.listed → Serves (Self.nodes 4)
        Self.Subject4.Node.Node.laws Self.Subject4.Node.Node.PROBES };

    ghost at5: { Has 5 Self.listed → Serves (Self.nodes 5)
        Self.Subject5.Node.Node.laws Self.Subject5.Node.Node.PROBES };

    ghost at6: { Has 6 Self.listed → Serves (Self.nodes 6)
        Self.Subject6.Node.Node.laws Self.Subject6.Node.Node.PROBES };

    ghost at7: { Has 7 Self.listed → Serves (Self.nodes 7)
        Self.Subject7.Node.Node.laws Self.Subject7.Node.Node.PROBES };
}

impl<S: Subject> Searchable for Only<S> {
    type Subject0 = S;

    type Subject1 = S;

    type Subject2 = S;

    type Subject3 = S;

    type Subject4 = S;

    type Subject5 = S;

    type Subject6 = S;

    type Subject7 = S;

    ghost at0 = { λ _ s names area script c. refl };

    ghost at1 = { λ has. absurd has };

    ghost at2 = { λ has. absurd has };

    ghost at3 = { λ has. absurd has };

    ghost at4 = { λ has. absurd has };

    ghost at5 = { λ has. absurd has };

    ghost at6 = { λ has. absurd has };

    ghost at7 = { λ has. absurd has };
}

impl<S: Subject, L: Searchable> Searchable for With<S, L> {
    type Subject0 = S;

    type Subject1 = L::Subject0;

    type Subject2 = L::Subject1;

    type Subject3 = L::Subject2;

    type Subject4 = L::Subject3;

    type Subject5 = L::Subject4;

    type Subject6 = L::Subject5;

    type Subject7 = L::Subject6;

    ghost at0 = { λ _ s names area script c. refl };

    ghost at1 = { L.at0 };

    ghost at2 = { L.at1 };

    ghost at3 = { L.at2 };

    ghost at4 = { L.at3 };

    ghost at5 = { L.at4 };

    ghost at6 = { L.at5 };

    ghost at7 = { L.at6 };
}
